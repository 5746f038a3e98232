//! What a book knows of its plan.

ghost use Rattle.std.specs.Prelude.{◌≡◌, length, replicate, IfOk};
ghost use Rattle.plan_model.specs.Limits.{IsSize, IsLevelCount};
ghost use Rattle.plan_model.specs.States.{job_of, frame_of, has_work, same_region};
ghost use Rattle.plan_model.specs.declared.events.Work.TheVariants.{Free};

use crate::levels::PlanLevel;
use crate::passes::Passes;
use active_region::Actives;
use clip_regions::Region;
use plan_model::{JobNote, Work};
use std::marker::Model;

// A frame that was begun: its number, the viewer, and the active regions, the finest first.
#[derive(Drop)]
pub(crate) struct PlanFrame {
    pub(crate) number: u64,
    pub(crate) x: i32,
    pub(crate) y: i32,
    pub(crate) actives: Actives,
}

impl Model for PlanFrame {
    ghost use Rattle.plan_model.specs.States.{OpenFrame};

    ghost Value = { OpenFrame };

    ghost view = { λ a. record { number = a.number; x = a.x; y = a.y; actives = a.actives } };
}

// K, the viewer and its altitude, the levels with the finest first, the number of frames begun, and what
// each pass has.
#[derive(Drop)]
pub(crate) struct PlanDesk {
    pub(crate) k: u8,
    pub(crate) x: i32,
    pub(crate) y: i32,
    pub(crate) altitude: u32,
    pub(crate) levels: Vec<PlanLevel>,
    pub(crate) begun: u64,
    pub(crate) passes: Passes,
}

impl Model for PlanDesk {
    ghost use Rattle.book_plan.specs.Desks.{Desk};

    ghost Value = { Desk };

    ghost view = { λ a. record {
      k = a.k;
      x = a.x;
      y = a.y;
      altitude = a.altitude;
      levels = a.levels.items;
      begun = a.begun;
      passes = a.passes;
    } };
}

// Whether two regions have the same cells.
#[tactic(auto, unfolding(plan_model::specs::States::same_region))]
pub(crate) fn same_region(a: Region, b: Region) -> bool
    ensures value { result ≡ same_region a b }
{
    a.holds(b) && b.holds(a)
}

// The job that a pass has.
pub(crate) fn job_of(pass: &Work<PlanFrame>) -> Option<JobNote>
    ensures value { result ≡ job_of pass.now }
{
    match pass {
        Work::Fills(job) => Some(*job),
        Work::Free | Work::Draws(_) => None,
    }
}

// Whether a pass has a job or a frame.
pub(crate) fn has_work(pass: &Work<PlanFrame>) -> bool
    ensures value { result ≡ has_work pass.now }
{
    match pass {
        Work::Free => false,
        Work::Fills(_) | Work::Draws(_) => true,
    }
}
