//! The numbers of a book's plan, and which levels are in use.

ghost use Rattle.std.specs.Prelude.{◌≡◌, ℕ, ◌^◌, ◌<◌, ◌≤◌, length, slice_index_or, slice_set};
ghost use Rattle.plan_model.specs.Limits.{IsSize, IsLevelCount, IsViewed};
ghost use Rattle.plan_model.specs.States.{is_seen, finest_used, finest_at, is_used, filled_at, window_at, is_whole};
ghost use Rattle.plan_model.specs.States.{level_at, pass_at, job_of, frame_of, has_work};
ghost use Rattle.plan_model.specs.Strips.{current_strip};
ghost use Rattle.plan_model.specs.Claims.{strip_at};
ghost use Rattle.plan_model.specs.Tiles.{holder, pinner};
ghost use Rattle.plan_model.specs.Claims.{held_tiles};
ghost use Rattle.plan_model.specs.Strips.{first_of};
ghost use Rattle.clip_regions.specs.Regions.{IsPlaced};
ghost use Rattle.book_plan.specs.Slots.{empty_shelf};
ghost use Rattle.book_plan.specs.Desks.{state_of, IsStanding};
ghost use Rattle.plan_model.specs.Window.{window};
ghost use Rattle.book_plan.specs.Moves.{IsRoomy};
ghost use Rattle.book_plan.specs.Found.{number_of};

use crate::desk::{PlanDesk, PlanFrame, same_region};
use crate::levels::PlanLevel;
use crate::passes::{first_under, frame_in, holder_of, job_in, pinner_of, works};
use clip_regions::Region;
use level_frame::window;
use plan_laws::{parts_are_filled_in, strips_lie_in_windows, windows_have_few_pieces};
use plan_model::{JobNote, TileId, Work};
use strip_planner::{current_strip, regions_in_windows_are_planned};

// 2 to a power of at most 20.
fn power_of_two(power: u8) -> u32
    requires { power ≤ 20 }
    ensures value { result ≡ 2 ^ power }
{
    1 << power
}

// Whether a level of so many is seen from an altitude: it is the coarsest, or the altitude is at most
// 2^(K + level).
#[tactic(auto, unfolding(plan_model::specs::States::is_seen))]
fn is_seen(k: u8, levels: u8, altitude: u32, level: u8) -> bool
    requires k { IsSize k }
    requires levels { IsLevelCount levels }
    requires level { level < levels }
    ensures value { result ≡ is_seen k levels altitude level }
{
    level + 1 == levels || altitude <= power_of_two(k + level)
}

// The finest level in use of so many, for a viewer at an altitude: the first that is the coarsest or for
// which the altitude is at most 2^(K + level).
pub(crate) fn finest_used(k: u8, levels: u8, altitude: u32) -> u8
    requires k { IsSize k }
    requires levels { IsLevelCount levels }
    ensures value { result ≡ finest_used k levels altitude }
    ensures below { result < levels }
{
    for level in 0..levels {
        if is_seen(k, levels, altitude, level) {
            return level;
        }
    }
    0
}

// The window of a level for a viewer at sample (`x`, `y`): there is room for the pieces of what lies in it.
pub(crate) fn roomy_window(k: u8, level: u8, x: i32, y: i32) -> Region
    requires k { IsSize k }
    requires level { level ≤ 11 }
    requires x { IsViewed x }
    requires y { IsViewed y }

    // It is the window of the definition, where pieces have room.
    ensures value { result ≡ window k level x y }
    ensures placed { IsPlaced result }
    ensures roomy { IsRoomy result }
{
    regions_in_windows_are_planned();
    windows_have_few_pieces();
    strips_lie_in_windows();
    window(k, level, x, y)
}

// The filled region of one of some levels.
fn filled_of(levels: &[PlanLevel], level: u8) -> Region
    requires { level < length levels.now }
    ensures value { result ≡ (slice_index_or levels.now level empty_shelf).filled }
{
    levels[level as usize].filled()
}

// The plan number of one of some levels.
fn plan_of(levels: &[PlanLevel], level: u8) -> u64
    requires { level < length levels.now }
    ensures value { result ≡ (slice_index_or levels.now level empty_shelf).plan }
{
    levels[level as usize].plan()
}

impl PlanDesk {
    // How many levels there are.
    pub(crate) fn level_count(&self) -> u8
        requires { IsStanding self.now }
        ensures value { result ≡ length (state_of self.now).levels }
        ensures shelves { result ≡ length self.now.levels }
    {
        self.levels.len() as u8
    }

    // The finest level in use.
    pub(crate) fn finest(&self) -> u8
        requires { IsStanding self.now }
        ensures value { result ≡ finest_at (state_of self.now) }
        ensures below { result < length self.now.levels }
    {
        finest_used(self.k, self.levels.len() as u8, self.altitude)
    }

    // Whether a level is in use.
    #[tactic(auto, unfolding(plan_model::specs::States::is_used))]
    pub(crate) fn is_used(&self, level: u8) -> bool
        requires { IsStanding self.now }
        ensures value { result ≡ is_used (state_of self.now) level }
    {
        self.finest() <= level
    }

    // The filled region of a level.
    #[tactic(auto, using(crate::proofs::Shelves::filled_is))]
    pub(crate) fn filled_at(&self, level: u8) -> Region
        requires { level < length self.now.levels }
        ensures value { result ≡ filled_at (state_of self.now) level }
    {
        filled_of(self.levels.as_slice(), level)
    }

    // The plan number of a level.
    #[tactic(auto, using(crate::proofs::Shelves::plan_is))]
    pub(crate) fn plan_at(&self, level: u8) -> u64
        requires { level < length self.now.levels }
        ensures value { result ≡ (level_at (state_of self.now) level).plan }
    {
        plan_of(self.levels.as_slice(), level)
    }

    // The window of a level.
    pub(crate) fn window_at(&self, level: u8) -> Region
        requires standing { IsStanding self.now }
        requires level { level < length self.now.levels }
        ensures value { result ≡ window_at (state_of self.now) level }
        ensures roomy { IsRoomy result }
    {
        roomy_window(self.k, level, self.x, self.y)
    }

    // Whether the level's filled region is its window.
    #[tactic(auto, unfolding(plan_model::specs::States::is_whole))]
    pub(crate) fn is_whole(&self, level: u8) -> bool
        requires standing { IsStanding self.now }
        requires level { level < length self.now.levels }
        ensures value { result ≡ is_whole (state_of self.now) level }
    {
        same_region(self.filled_at(level), self.window_at(level))
    }

    // The first strip of a level's window.
    fn first_strip(&self, level: u8) -> Option<Region>
        requires standing { IsStanding self.now }
        requires level { level < length self.now.levels }
        ensures value { result
            ≡ current_strip (filled_at (state_of self.now) level) (window_at (state_of self.now) level) }
    {
        parts_are_filled_in();
        let filled = self.filled_at(level);
        let window = self.window_at(level);
        current_strip(filled, window)
    }

    // The current strip of a level, which a level that is left out has not.
    #[tactic(auto, unfolding(plan_model::specs::Claims::strip_at))]
    pub(crate) fn strip_at(&self, level: u8) -> Option<Region>
        requires standing { IsStanding self.now }
        requires level { level < length self.now.levels }
        ensures value { result ≡ strip_at (state_of self.now) level }
    {
        if !self.is_used(level) {
            return None;
        }
        self.first_strip(level)
    }

    // The job that a pass has.
    pub(crate) fn job_at(&self, p: u8) -> Option<JobNote>
        requires { p < length self.now.passes }
        ensures value { result ≡ job_of (pass_at (state_of self.now) p) }
    {
        job_in(self.passes.as_slice(), p)
    }

    // The number of the frame that a pass has.
    pub(crate) fn frame_at(&self, p: u8) -> Option<u64>
        requires { p < length self.now.passes }
        ensures value { result ≡ number_of (frame_of (pass_at (state_of self.now) p)) }
    {
        frame_in(self.passes.as_slice(), p)
    }

    // Whether a pass has a job or a frame.
    pub(crate) fn has_work(&self, p: u8) -> bool
        requires { p < length self.now.passes }
        ensures value { result ≡ has_work (pass_at (state_of self.now) p) }
    {
        works(self.passes.as_slice(), p)
    }

    // Puts this in the place of what pass p has.
    pub(crate) fn set_pass(&mut self, p: u8, new: Work<PlanFrame>)
        requires { p < length self.old.passes }
        ensures { self.new ≡ record self.old { passes = slice_set self.old.passes p new } }
    {
        self.passes.set(p, new);
    }

    // The pass that holds the tile of a level.
    #[tactic(auto, unfolding(plan_model::specs::Tiles::holder))]
    pub(crate) fn holder(&self, level: u8, t: TileId) -> Option<u8>
        requires { IsStanding self.now }
        ensures value { result ≡ holder (state_of self.now) level t }
    {
        holder_of(self.k, self.passes.as_slice(), self.passes.used(), level, t)
    }

    // The least number of a frame that pins the tile of a level.
    #[tactic(auto, unfolding(plan_model::specs::Tiles::pinner, plan_model::specs::Tiles::pinning_frames))]
    pub(crate) fn pinner(&self, level: u8, t: TileId) -> Option<u64>
        requires { IsStanding self.now }
        ensures value { result ≡ pinner (state_of self.now) level t }
    {
        pinner_of(self.k, self.passes.as_slice(), self.passes.used(), level, t)
    }

    // The first held tile of a level that a region meets.
    pub(crate) fn first_held(&self, level: u8, region: Region) -> Option<TileId>
        requires { IsStanding self.now }
        ensures value { result ≡ first_of (held_tiles (state_of self.now) level region) }
    {
        first_under(
            self.k,
            self.passes.as_slice(),
            self.passes.used(),
            level,
            region,
        )
    }
}
