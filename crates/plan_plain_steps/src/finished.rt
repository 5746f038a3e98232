//! Which pieces of a level are finished, and where its filled region and its window lie.

ghost use Rattle.std.specs.Prelude.{◌≡◌, ◌^◌, ◌≤◌, ◌<◌, not, ◌||◌, filter, length, slice_index_or, IfOk, IfSome, vec_len};
ghost use Rattle.clip_regions.specs.Regions.{IsWithin};
ghost use Rattle.plan_model.specs.Blocks.{same_block};
ghost use Rattle.plan_model.specs.Strips.{current_strip};
ghost use Rattle.plan_model.specs.Claims.{is_finished, strip_at};
ghost use Rattle.plan_model.specs.Sound.{IsInside, IsReady};
ghost use Rattle.plan_plain_pieces.specs.Placed.{IsShort};
ghost use Rattle.plan_model.specs.States.{empty_level, filled_at, window_at, is_whole};

use crate::state::{PlainLevel, PlainState, same_region};
use clip_regions::Region;
use level_frame::window;
use plan_model::Piece;
use plan_plain_pieces::{current_strip, finished_with, is_finished, unfinished_of};
use plan_sound::{windows_are_near, windows_have_cells};
use std::alloc::{AllocError, Global};

// Whether the piece's block is that of a finished piece of one of some levels.
pub(crate) fn finished_in(levels: &[PlainLevel], level: u8, piece: Piece) -> bool
    requires { level < length levels.now }
    ensures value { result ≡ is_finished (slice_index_or levels.now level empty_level).finished piece }
{
    is_finished(levels[level as usize].finished(), piece)
}

// Those of some pieces that aren't finished on one of some levels.
pub(crate) fn unfinished_in(
    alloc: Global,
    levels: &[PlainLevel],
    level: u8,
    some: &[Piece],
) -> Result<Vec<Piece>, AllocError>
    requires { level < length levels.now }
    ensures value { IfOk result (λ v. v.items ≡
        filter (λ piece. not (is_finished (slice_index_or levels.now level empty_level).finished piece)) some.now) }
    ensures few { IfOk result (λ v. vec_len v ≤ length some.now) }
{
    unfinished_of(alloc, levels[level as usize].finished(), some)
}

// Those of a strip's pieces that are finished on one of some levels once one more is.
pub(crate) fn finished_more(
    alloc: Global,
    levels: &[PlainLevel],
    level: u8,
    all: &[Piece],
    piece: Piece,
) -> Result<Vec<Piece>, AllocError>
    requires { level < length levels.now }
    ensures value { IfOk result (λ v. v.items ≡ filter (λ other. same_block other piece ||
        is_finished (slice_index_or levels.now level empty_level).finished other) all.now) }
{
    finished_with(alloc, all, levels[level as usize].finished(), piece)
}

// The filled region of one of some levels.
fn filled_of(levels: &[PlainLevel], level: u8) -> Region
    requires { level < length levels.now }
    ensures value { result ≡ (slice_index_or levels.now level empty_level).filled }
{
    levels[level as usize].filled()
}

impl PlainState {
    /// The filled region of a level.
    pub fn filled_at(&self, level: u8) -> Region
        requires { level < length self.now.levels }
        ensures value { result ≡ filled_at self.now level }
    {
        filled_of(self.levels.as_slice(), level)
    }

    /// The window of a level.
    pub fn window_at(&self, level: u8) -> Region
        requires sound { IsReady self.now }
        requires level { level < length self.now.levels }
        ensures value { result ≡ window_at self.now level }
        ensures within { IsWithin (2 ^ 24) result }
        ensures short { IsShort result }
        ensures some { IsInside result result }
    {
        windows_are_near();
        windows_have_cells();
        window(self.k, level, self.x, self.y)
    }

    /// Whether the level's filled region is its window.
    #[tactic(auto, unfolding(plan_model::specs::States::is_whole))]
    pub fn is_whole(&self, level: u8) -> bool
        requires sound { IsReady self.now }
        requires level { level < length self.now.levels }
        ensures value { result ≡ is_whole self.now level }
    {
        same_region(self.filled_at(level), self.window_at(level))
    }

    // The first strip of a level's window. It fails where memory runs out.
    fn first_strip(&self, alloc: Global, level: u8) -> Result<Option<Region>, AllocError>
        requires sound { IsReady self.now }
        requires level { level < length self.now.levels }
        ensures value { IfOk result (λ strip. strip ≡
            current_strip (filled_at self.now level) (window_at self.now level)) }
        ensures within { IfOk result (λ strip. IfSome strip (IsWithin (2 ^ 24))) }
        ensures short { IfOk result (λ strip. IfSome strip IsShort) }
    {
        let filled = self.filled_at(level);
        let window = self.window_at(level);
        current_strip(alloc, filled, window)
    }

    /// The current strip of a level, which a level that is left out has not. It fails where memory runs
    /// out.
    #[tactic(auto, unfolding(plan_model::specs::Claims::strip_at))]
    pub fn strip_at(&self, alloc: Global, level: u8) -> Result<Option<Region>, AllocError>
        requires sound { IsReady self.now }
        requires level { level < length self.now.levels }
        ensures value { IfOk result (λ strip. strip ≡ strip_at self.now level) }
        ensures within { IfOk result (λ strip. IfSome strip (IsWithin (2 ^ 24))) }
        ensures short { IfOk result (λ strip. IfSome strip IsShort) }
    {
        if !self.is_used(level) {
            return Ok(None);
        }
        self.first_strip(alloc, level)
    }
}
