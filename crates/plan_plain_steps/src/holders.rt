//! Which torus tiles are held by a pass that fills them.

ghost use Rattle.std.specs.Prelude.{◌≡◌, ◌≤◌, filter, length, slice_index_or};
ghost use Rattle.std.specs.List.{range_with_len};
ghost use Rattle.plan_model.specs.Limits.{IsSize};
ghost use Rattle.plan_model.specs.Strips.{first_of};
ghost use Rattle.plan_model.specs.States.{job_of};
ghost use Rattle.plan_model.specs.Tiles.{job_holds, holder, is_held};
ghost use Rattle.plan_model.specs.declared.events.Work.TheVariants.{Free};
ghost use Rattle.plan_plain_steps.specs.Found.{or_found};

use crate::state::{PlainFrame, PlainState, job_of};
use plan_model::{JobNote, TileId, Work};
use plan_plain_pieces::lies_in;

// Whether a pass's job holds the tile of a level.
fn job_holds(k: u8, level: u8, t: TileId, job: Option<JobNote>) -> bool
    requires { IsSize k }
    ensures value { result ≡ job_holds k level t job }
{
    match job {
        None => false,
        Some(job) => job.level == level && lies_in(k, job.piece, t),
    }
}

// The first number that was found, where one was or `p` is.
pub(crate) fn or_found(first: Option<u8>, found: bool, p: u8) -> Option<u8>
    ensures value { result ≡ or_found first found p }
{
    match first {
        Some(q) => Some(q),
        None => { if found { Some(p) } else { None } }
    }
}

/// The first of some passes whose job holds the tile of a level.
pub fn holder_of(k: u8, passes: &[Work<PlainFrame>], level: u8, t: TileId) -> Option<u8>
    requires k { IsSize k }
    requires few { length passes.now ≤ 256 }
    ensures value { result ≡ first_of (filter (λ p. job_holds k level t (job_of (slice_index_or passes.now p Free)))
        (range_with_len 0 (length passes.now))) }
{
    let mut first = None;
    for p in 0..passes.len() {
        let found = job_holds(k, level, t, job_of(&passes[p]));
        first = or_found(first, found, p as u8);
    }
    first
}

impl PlainState {
    /// The pass that holds the tile of a level.
    #[tactic(auto, unfolding(plan_model::specs::Tiles::holder))]
    pub fn holder(&self, level: u8, t: TileId) -> Option<u8>
        requires k { IsSize self.now.k }
        requires few { length self.now.passes ≤ 256 }
        ensures value { result ≡ holder self.now level t }
    {
        holder_of(self.k, self.passes.as_slice(), level, t)
    }

    /// Whether the tile of a level is held.
    #[tactic(auto, unfolding(plan_model::specs::Tiles::is_held))]
    pub fn is_held(&self, level: u8, t: TileId) -> bool
        requires k { IsSize self.now.k }
        requires few { length self.now.passes ≤ 256 }
        ensures value { result ≡ is_held self.now level t }
    {
        self.holder(level, t).is_some()
    }
}
