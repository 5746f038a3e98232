//! A move of the viewer.

ghost use Rattle.std.specs.Prelude.{◌≡◌, ℕ, ◌^◌, ◌-◌, ◌<◌, ◌≤◌, nat_le, length, map, slice_index_or};
ghost use Rattle.std.specs.Bool.{beq};
ghost use Rattle.std.specs.List.{range_with_len};
ghost use Rattle.clip_regions.specs.Regions.{IsPlaced};
ghost use Rattle.plan_model.specs.Limits.{IsSize, IsLevelCount, IsViewer};
ghost use Rattle.plan_model.specs.Window.{window};
ghost use Rattle.plan_model.specs.States.{empty_level, finest_used, same_region};
ghost use Rattle.plan_model.specs.Steps.{moved_level, move_step};
ghost use Rattle.plan_model.specs.Sound.{IsReady, IsSoundLevel};
ghost use Rattle.plan_plain_steps.specs.Moves.{stays_for};

use crate::in_use::finest_used;
use crate::state::{PlainLevel, PlainState, same_region};
use clip_regions::Region;
use level_frame::window;
use plan_model::Answer;
use plan_sound::windows_are_near;

// Where a viewer stands: a sample of the mosaic, and the altitude.
#[derive(Clone, Copy)]
pub(crate) struct Viewer {
    x: i32,
    y: i32,
    a: u32,
}

// Whether a level's window is the same for two viewers.
fn same_window(k: u8, from: Viewer, to: Viewer, level: u8) -> bool
    requires k { IsSize k }
    requires from { IsViewer from.x from.y from.a }
    requires to { IsViewer to.x to.y to.a }
    requires level { level ≤ 11 }
    ensures value { result ≡ same_region (window k level from.x from.y) (window k level to.x to.y) }
{
    let before = window(k, level, from.x, from.y);
    let after = window(k, level, to.x, to.y);
    same_region(before, after)
}

// Whether a level of so many is in use for a viewer at an altitude.
fn is_used(k: u8, levels: u8, altitude: u32, level: u8) -> bool
    requires k { IsSize k }
    requires levels { IsLevelCount levels }
    ensures value { result ≡ nat_le (finest_used k levels altitude) level }
{
    finest_used(k, levels, altitude) <= level
}

// Whether a level of so many is in use for two viewers or for neither.
fn same_use(k: u8, levels: u8, from: Viewer, to: Viewer, level: u8) -> bool
    requires k { IsSize k }
    requires levels { IsLevelCount levels }
    ensures value { result ≡ beq (nat_le (finest_used k levels from.a) level)
        (nat_le (finest_used k levels to.a) level) }
{
    is_used(k, levels, from.a, level) == is_used(k, levels, to.a, level)
}

// Whether a level of so many stays where the viewer moves: its window is the same, and it is in use before
// and after or neither.
fn stays(k: u8, levels: u8, from: Viewer, to: Viewer, level: u8) -> bool
    requires k { IsSize k }
    requires levels { IsLevelCount levels }
    requires from { IsViewer from.x from.y from.a }
    requires to { IsViewer to.x to.y to.a }
    requires level { level < levels }
    ensures value { result ≡ stays_for k levels from to level }
{
    same_window(k, from, to, level) && same_use(k, levels, from, to, level)
}

impl PlainLevel {
    // The level after a move, by whether it stays and by its window then.
    #[tactic(auto, unfolding(plan_model::specs::Steps::moved_level))]
    fn move_window(&mut self, stays: bool, window: Region)
        requires filled { IsPlaced self.old.filled }
        requires window { IsPlaced window }
        requires plan { self.old.plan < 2 ^ 64 - 1 }
        ensures value { self.new ≡ moved_level stays window self.old }
    {
        if stays {
            return;
        }
        self.filled = self.filled.meet(window);
        self.finished.clear();
        self.plan += 1;
    }
}

// Some levels after a move.
fn move_levels(levels: &mut [PlainLevel], k: u8, from: Viewer, to: Viewer)
    requires k { IsSize k }
    requires many { IsLevelCount (length levels.old) }
    requires from { IsViewer from.x from.y from.a }
    requires to { IsViewer to.x to.y to.a }
    requires sound { (level : ℕ) → level < length levels.old →
        IsSoundLevel (2 ^ 63) (window k level from.x from.y) (slice_index_or levels.old level empty_level) }
    ensures value { levels.new ≡ map (λ level. moved_level (stays_for k (length levels.old) from to level)
        (window k level to.x to.y) (slice_index_or levels.old level empty_level))
        (range_with_len 0 (length levels.old)) }
{
    windows_are_near();
    let count = levels.len() as u8;
    for l in 0..levels.len() {
        let still = stays(k, count, from, to, l as u8);
        let after = window(k, l as u8, to.x, to.y);
        let level = &mut levels[l];
        level.move_window(still, after);
    }
}

impl PlainState {
    /// The viewer moves to sample (`x`, `y`) of the mosaic, each from −4194304 to 4194304, at altitude `a`,
    /// up to 1048576.
    #[tactic(auto, unfolding(plan_model::specs::Steps::move_step))]
    pub fn move_to(&mut self, x: i32, y: i32, a: u32) -> Answer
        requires sound { IsReady self.old }
        requires viewer { IsViewer x y a }
        ensures answer { result ≡ (move_step self.old x y a).answer }
        ensures state { self.new ≡ (move_step self.old x y a).state }
    {
        let from = Viewer {
            x: self.x,
            y: self.y,
            a: self.altitude,
        };
        let to = Viewer { x, y, a };
        move_levels(self.levels.as_mut_slice(), self.k, from, to);
        self.x = x;
        self.y = y;
        self.altitude = a;
        Answer::Moved
    }
}
