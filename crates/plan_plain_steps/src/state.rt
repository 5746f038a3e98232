//! What a book of the plan knows.

ghost use Rattle.std.specs.Prelude.{◌≡◌, length, replicate, IfOk};
ghost use Rattle.plan_model.specs.Limits.{IsSize, IsLevelCount};
ghost use Rattle.plan_model.specs.States.{empty_level, job_of, frame_of, has_work, same_region, start_state};
ghost use Rattle.plan_model.specs.Sound.{IsSound};
ghost use Rattle.plan_model.specs.declared.events.Work.TheVariants.{Free};
ghost use Rattle.plan_plain_steps.specs.Frames.{number_of};

use clip_regions::Region;
use plan_model::{JobNote, Piece, Work};
use plan_sound::starts_are_sound;
use std::alloc::{AllocError, Global};
use std::marker::Model;

/// A level: its filled region, the finished pieces of its current strip in the strip's order, and its
/// plan number.
#[derive(Drop)]
pub struct PlainLevel {
    pub(crate) filled: Region,
    pub(crate) finished: Vec<Piece>,
    pub(crate) plan: u64,
}

impl Model for PlainLevel {
    ghost use Rattle.plan_model.specs.States.{Level};

    ghost Value = { Level };

    ghost view = { λ a. record { filled = a.filled; finished = a.finished.items; plan = a.plan } };
}

/// A frame that was begun: its number, the viewer, and the active regions, the finest first.
#[derive(Drop)]
pub struct PlainFrame {
    pub(crate) number: u64,
    pub(crate) x: i32,
    pub(crate) y: i32,
    pub(crate) actives: Vec<Region>,
}

impl Model for PlainFrame {
    ghost use Rattle.plan_model.specs.States.{OpenFrame};

    ghost Value = { OpenFrame };

    ghost view = { λ a. record { number = a.number; x = a.x; y = a.y; actives = a.actives.items } };
}

/// The state of a book: K, the viewer and its altitude, the levels with the finest first, the number of
/// frames begun, and what each pass has.
#[derive(Drop)]
pub struct PlainState {
    pub(crate) k: u8,
    pub(crate) x: i32,
    pub(crate) y: i32,
    pub(crate) altitude: u32,
    pub(crate) levels: Vec<PlainLevel>,
    pub(crate) begun: u64,
    pub(crate) passes: Vec<Work<PlainFrame>>,
}

impl Model for PlainState {
    ghost use Rattle.plan_model.specs.States.{State};

    ghost Value = { State };

    ghost view = { λ a. record {
      k = a.k;
      x = a.x;
      y = a.y;
      altitude = a.altitude;
      levels = a.levels.items;
      begun =
          a.begun;
      passes = a.passes.items;
    } };
}

/// Whether two regions have the same cells.
#[tactic(auto, unfolding(plan_model::specs::States::same_region))]
pub fn same_region(a: Region, b: Region) -> bool
    ensures value { result ≡ same_region a b }
{
    a.holds(b) && b.holds(a)
}

impl PlainLevel {
    // A level of which nothing is filled.
    fn empty(alloc: Global) -> PlainLevel
        ensures value { result ≡ empty_level }
    {
        PlainLevel {
            filled: Region::empty(),
            finished: Vec::new(alloc),
            plan: 0,
        }
    }
}

impl PlainLevel {
    /// The level's filled region.
    pub fn filled(&self) -> Region
        ensures value { result ≡ self.now.filled }
    {
        self.filled
    }

    /// The finished pieces of the level's current strip, in the strip's order.
    pub fn finished(&self) -> &[Piece]
        ensures value { result.now ≡ self.now.finished }
    {
        self.finished.as_slice()
    }

    /// The level's plan number.
    pub fn plan(&self) -> u64
        ensures value { result ≡ self.now.plan }
    {
        self.plan
    }
}

impl PlainFrame {
    /// The frame's number.
    pub fn number(&self) -> u64
        ensures value { result ≡ self.now.number }
    {
        self.number
    }
}

/// The job that a pass has.
pub fn job_of(pass: &Work<PlainFrame>) -> Option<JobNote>
    ensures value { result ≡ job_of pass.now }
{
    match pass {
        Work::Fills(job) => Some(*job),
        Work::Free | Work::Draws(_) => None,
    }
}

/// The number of the frame that a pass has.
pub fn frame_number(pass: &Work<PlainFrame>) -> Option<u64>
    ensures value { result ≡ number_of (frame_of pass.now) }
{
    match pass {
        Work::Draws(frame) => Some(frame.number),
        Work::Free | Work::Fills(_) => None,
    }
}

/// Whether a pass has a job or a frame.
pub fn has_work(pass: &Work<PlainFrame>) -> bool
    ensures value { result ≡ has_work pass.now }
{
    match pass {
        Work::Free => false,
        Work::Fills(_) | Work::Draws(_) => true,
    }
}

// Levels of which nothing is filled.
#[tactic(auto, using(std::proofs::lemmas::List::replicate_more))]
fn empty_levels(alloc: Global, count: u8) -> Result<Vec<PlainLevel>, AllocError>
    ensures value { IfOk result (λ v. v.items ≡ replicate count empty_level) }
{
    let mut out = Vec::new(alloc);
    'made: for _ in 0..count {
        out.push(PlainLevel::empty(alloc))?;
    }
    Ok(out)
}

// Free passes.
#[tactic(auto, using(std::proofs::lemmas::List::replicate_more))]
fn free_passes(alloc: Global, count: u8) -> Result<Vec<Work<PlainFrame>>, AllocError>
    ensures value { IfOk result (λ v. v.items ≡ replicate count Free) }
{
    let mut out = Vec::new(alloc);
    'made: for _ in 0..count {
        out.push(Work::Free)?;
    }
    Ok(out)
}

impl PlainState {
    /// The state at the start, for K from 4 to 8 and 1 to 12 levels: viewer (0, 0) at altitude 0, nothing
    /// filled, 16 free passes. It fails where memory runs out.
    #[tactic(auto, unfolding(plan_model::specs::States::start_state))]
    pub fn start(alloc: Global, k: u8, levels: u8) -> Result<PlainState, AllocError>
        requires k { IsSize k }
        requires levels { IsLevelCount levels }
        ensures value { IfOk result (λ state. state ≡ start_state k levels) }
        ensures sound { IfOk result (λ state. IsSound 0 state) }
        ensures count { IfOk result (λ state. length state.levels ≡ levels) }
    {
        starts_are_sound();
        let levels = empty_levels(alloc, levels)?;
        let passes = free_passes(alloc, 16)?;
        Ok(PlainState {
            k,
            x: 0,
            y: 0,
            altitude: 0,
            levels,
            begun: 0,
            passes,
        })
    }
}
