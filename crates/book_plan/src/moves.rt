//! A move of the viewer.

ghost use Rattle.std.specs.Prelude.{◌≡◌, ℕ, ◌^◌, ◌-◌, ◌<◌, ◌≤◌, length, map, slice_index_or};
ghost use Rattle.std.specs.Bool.{beq};
ghost use Rattle.std.specs.List.{range_with_len};
ghost use Rattle.clip_regions.specs.Regions.{IsPlaced};
ghost use Rattle.plan_model.specs.Limits.{IsSize, IsLevelCount, IsViewer};
ghost use Rattle.plan_model.specs.Window.{window};
ghost use Rattle.plan_model.specs.States.{same_region};
ghost use Rattle.plan_model.specs.Steps.{move_step};
ghost use Rattle.plan_model.specs.Laws.{IsFilledIn};
ghost use Rattle.book_plan.specs.Slots.{empty_shelf};
ghost use Rattle.book_plan.specs.Desks.{state_of, shelf_at, HaveSlots, IsStanding};
ghost use Rattle.book_plan.specs.Moves.{used_for, stays_for, strip_where, filled_shelf, moved_shelf, moved_from};
ghost use Rattle.book_plan.specs.Moves.{viewer_of, moved_desk, IsRoomy};

use crate::desk::{PlanDesk, same_region};
use crate::in_use::{finest_used, roomy_window};
use crate::levels::PlanLevel;
use crate::viewers::Viewer;
use clip_regions::Region;
use level_frame::window;
use plan_laws::inside_is_held;
use plan_model::Answer;
use plan_sound::{windows_are_near, windows_have_cells};
use strip_planner::current_strip;

// Whether a level's window is the same for two viewers.
fn same_window(k: u8, from: Viewer, to: Viewer, level: u8) -> bool
    requires k { IsSize k }
    requires from { IsViewer from.x from.y from.a }
    requires to { IsViewer to.x to.y to.a }
    requires level { level ≤ 11 }
    ensures value { result ≡ same_region (window k level from.x from.y) (window k level to.x to.y) }
{
    let before = window(k, level, from.x, from.y);
    let after = window(k, level, to.x, to.y);
    same_region(before, after)
}

// Whether a level of so many is in use for a viewer.
fn is_used(k: u8, levels: u8, viewer: Viewer, level: u8) -> bool
    requires k { IsSize k }
    requires levels { IsLevelCount levels }
    ensures value { result ≡ used_for k levels viewer level }
{
    finest_used(k, levels, viewer.a) <= level
}

// Whether a level of so many is in use for two viewers or for neither.
fn same_use(k: u8, levels: u8, from: Viewer, to: Viewer, level: u8) -> bool
    requires k { IsSize k }
    requires levels { IsLevelCount levels }
    ensures value { result ≡ beq (used_for k levels from level) (used_for k levels to level) }
{
    is_used(k, levels, from, level) == is_used(k, levels, to, level)
}

// Whether a level of so many stays where the viewer moves: its window is the same, and it is in use before
// and after or neither.
#[tactic(auto, unfolding(crate::specs::Moves::stays_for))]
fn stays(k: u8, levels: u8, from: Viewer, to: Viewer, level: u8) -> bool
    requires k { IsSize k }
    requires levels { IsLevelCount levels }
    requires from { IsViewer from.x from.y from.a }
    requires to { IsViewer to.x to.y to.a }
    requires level { level < levels }
    ensures value { result ≡ stays_for k levels from to level }
{
    same_window(k, from, to, level) && same_use(k, levels, from, to, level)
}

// The current strip of a filled region in its window, where the level is in use.
#[tactic(auto, unfolding(crate::specs::Moves::strip_where))]
fn strip_where(used: bool, filled: Region, window: Region) -> Option<Region>
    requires { IsFilledIn filled window }
    ensures { result ≡ strip_where used filled window }
{
    if !used {
        return None;
    }
    current_strip(filled, window)
}

// Gives a level another filled region and plan number in its window, with no piece finished.
pub(crate) fn fill_in(level: &mut PlanLevel, used: bool, filled: Region, plan: u64, window: Region)
    requires filled { IsFilledIn filled window }
    requires window { IsRoomy window }
    ensures { level.new ≡ filled_shelf used filled plan window }
{
    let strip = strip_where(used, filled, window);
    level.refill(filled, plan, strip);
}

// A level after a move, by whether it stays, whether it is in use then, and its window then.
#[tactic(auto, unfolding(crate::specs::Moves::moved_shelf))]
fn move_level(level: &mut PlanLevel, still: bool, used: bool, window: Region)
    requires filled { IsPlaced level.old.filled }
    requires placed { IsPlaced window }
    requires window { IsRoomy window }
    requires plan { level.old.plan < 2 ^ 64 - 1 }
    ensures { level.new ≡ moved_shelf still used window level.old }
{
    if still {
        return;
    }
    let filled = level.filled().meet(window);
    let plan = level.plan() + 1;
    fill_in(level, used, filled, plan, window);
}

// Some levels after a move.
fn move_levels(levels: &mut [PlanLevel], k: u8, from: Viewer, to: Viewer)
    requires k { IsSize k }
    requires many { IsLevelCount (length levels.old) }
    requires from { IsViewer from.x from.y from.a }
    requires to { IsViewer to.x to.y to.a }

    // Each level's filled region is placed, and its plan number can rise.
    requires placed { (level : ℕ) → level < length levels.old →
        IsPlaced (slice_index_or levels.old level empty_shelf).filled }
    requires plans { (level : ℕ) → level < length levels.old →
        (slice_index_or levels.old level empty_shelf).plan < 2 ^ 64 - 1 }

    // Each level is the definition's.
    ensures { levels.new ≡ map (moved_from k from to levels.old) (range_with_len 0 (length levels.old)) }
{
    let count = levels.len() as u8;
    for l in 0..levels.len() {
        let still = stays(k, count, from, to, l as u8);
        let used = is_used(k, count, to, l as u8);
        let after = roomy_window(k, l as u8, to.x, to.y);
        let level = &mut levels[l];
        move_level(level, still, used, after);
    }
}

impl PlanDesk {
    // The viewer.
    fn viewer(&self) -> Viewer
        ensures { result ≡ viewer_of self.now }
    {
        Viewer {
            x: self.x,
            y: self.y,
            a: self.altitude,
        }
    }

    // Another viewer.
    fn set_viewer(&mut self, to: Viewer)
        ensures { self.new ≡ record self.old { x = to.x; y = to.y; altitude = to.a } }
    {
        self.x = to.x;
        self.y = to.y;
        self.altitude = to.a;
    }

    // The levels move to another viewer.
    fn set_levels(&mut self, from: Viewer, to: Viewer)
        requires k { IsSize self.old.k }
        requires many { IsLevelCount (length self.old.levels) }
        requires from { IsViewer from.x from.y from.a }
        requires to { IsViewer to.x to.y to.a }

        // Each level's filled region is placed, and its plan number can rise.
        requires placed { (level : ℕ) → level < length self.old.levels →
            IsPlaced (shelf_at self.old level).filled }
        requires plans { (level : ℕ) → level < length self.old.levels →
            (shelf_at self.old level).plan < 2 ^ 64 - 1 }

        // The levels alone change, each to the definition's.
        ensures { self.new ≡ record self.old {
          levels = map (moved_from self.old.k from to self.old.levels) (range_with_len 0 (length self.old.levels));
        } }
    {
        move_levels(self.levels.as_mut_slice(), self.k, from, to);
    }

    // The viewer moves, and the levels with it.
    fn move_viewer(&mut self, to: Viewer)
        requires standing { IsStanding self.old }
        requires viewer { IsViewer to.x to.y to.a }
        ensures { self.new ≡ moved_desk self.old to }
    {
        windows_are_near();
        let from = self.viewer();
        self.set_levels(from, to);
        self.set_viewer(to);
    }

    // The viewer moves to sample (`x`, `y`) of the mosaic, each from −4194304 to 4194304, at altitude `a`,
    // up to 1048576.
    pub(crate) fn move_to(&mut self, x: i32, y: i32, a: u32) -> Answer
        requires standing { IsStanding self.old }
        requires viewer { IsViewer x y a }
        ensures answer { result ≡ (move_step (state_of self.old) x y a).answer }
        ensures state { state_of self.new ≡ (move_step (state_of self.old) x y a).state }
        ensures slots { HaveSlots self.new }
    {
        inside_is_held();
        windows_have_cells();
        self.move_viewer(Viewer { x, y, a });
        Answer::Moved
    }
}
