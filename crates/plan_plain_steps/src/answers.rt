//! What stands in the way where nothing can be claimed.

ghost use Rattle.std.specs.Prelude.{◌≡◌, ◌+◌, ◌^◌, ◌<◌, ◌≤◌, not, Some, All, IfOk, IfSome, filter, length};
ghost use Rattle.clip_regions.specs.Regions.{IsWithin};
ghost use Rattle.plan_model.specs.Strips.{first_of};
ghost use Rattle.plan_model.specs.States.{used_from_coarsest, is_whole};
ghost use Rattle.plan_model.specs.Claims.{held_answer, busy_answer, needed_answer, blocked, ripe_or_blocked, no_offer, unfinished_pieces};
ghost use Rattle.plan_model.specs.Sound.{IsReady};

use crate::holders::or_found;
use crate::state::PlainState;
use plan_model::{Answer, Piece, TileId};
use std::alloc::{AllocError, Global};

// The first of some pieces.
fn first_piece(some: &[Piece]) -> Option<Piece>
    requires { All (λ piece. IsWithin (2 ^ 24) piece.cells) some.now }
    ensures value { result ≡ first_of some.now }
    ensures within { IfSome result (λ piece. IsWithin (2 ^ 24) piece.cells) }
{
    some.first().copied()
}

// The coarsest level in use whose filled region isn't its window.
fn coarsest_unfilled(state: &PlainState) -> Option<u8>
    requires { IsReady state.now }
    ensures value { result ≡ first_of (filter (λ level. not (is_whole state.now level))
        (used_from_coarsest state.now)) }
    ensures there { IfSome result (λ level. level < length state.now.levels) }
{
    let mut first = None;
    for level in (state.finest()..state.level_count()).rev() {
        let unfilled = !state.is_whole(level);
        first = or_found(first, unfilled, level);
    }
    first
}

impl PlainState {
    // The answer that a tile of a level is held by a pass, where one holds it.
    pub(crate) fn held_answer(&self, level: u8, tile: TileId) -> Option<Answer>
        requires { IsReady self.now }
        ensures value { result ≡ held_answer self.now level tile }
    {
        match self.holder(level, tile) {
            Some(pass) => Some(Answer::Held { level, tile, pass }),
            None => None,
        }
    }

    // The answer that a tile of a level is pinned by a frame, where one pins it.
    fn busy_answer(
        &self,
        alloc: Global,
        level: u8,
        tile: TileId,
    ) -> Result<Option<Answer>, AllocError>
        requires { IsReady self.now }
        ensures value { IfOk result (λ answer. answer ≡ busy_answer self.now level tile) }
    {
        match self.pinner(alloc, level, tile)? {
            Some(frame) => Ok(Some(Answer::Busy { level, tile, frame })),
            None => Ok(None),
        }
    }

    // The answer that a coarser tile that the piece of a level needs is held, where one is.
    fn needed_answer(
        &self,
        alloc: Global,
        level: u8,
        piece: Piece,
    ) -> Result<Option<Answer>, AllocError>
        requires sound { IsReady self.now }
        requires level { level < length self.now.levels }
        requires cells { IsWithin (2 ^ 24) piece.cells }
        ensures value { IfOk result (λ answer. answer ≡ needed_answer self.now level piece) }
    {
        let held = self.held_needs(alloc, level, piece)?;
        match held.as_slice().first() {
            Some(tile) => Ok(self.held_answer(level + 1, *tile)),
            None => Ok(None),
        }
    }

    // What stands in the way of a piece of a level, the first that is there: its tile's holder, the frame
    // that pins its tile, the holder of a coarser tile that it needs.
    fn blocked(&self, alloc: Global, level: u8, piece: Piece) -> Result<Option<Answer>, AllocError>
        requires sound { IsReady self.now }
        requires level { level < length self.now.levels }
        requires cells { IsWithin (2 ^ 24) piece.cells }
        ensures value { IfOk result (λ answer. answer ≡ blocked self.now level piece) }
    {
        let tile = self.tile_of_piece(piece);
        let held = self.held_answer(level, tile);
        let busy = self.busy_answer(alloc, level, tile)?;
        let needed = self.needed_answer(alloc, level, piece)?;
        Ok(held.or(busy.or(needed)))
    }

    // What is answered where nothing can be claimed and this is the coarsest level that isn't whole.
    fn stuck(&self, alloc: Global, level: u8) -> Result<Answer, AllocError>
        requires sound { IsReady self.now }
        requires level { level < length self.now.levels }
        ensures value { IfOk result (λ answer. answer ≡
            ripe_or_blocked self.now level (first_of (unfinished_pieces self.now level))) }
    {
        let unfinished = self.unfinished_pieces(alloc, level)?;
        match first_piece(unfinished.as_slice()) {
            Some(piece) => Ok(self.blocked(alloc, level, piece)?.unwrap_or(Answer::Idle)),
            None => Ok(Answer::Ripe { level }),
        }
    }

    /// What is answered where nothing can be claimed. It fails where memory runs out.
    #[tactic(auto, unfolding(plan_model::specs::Claims::no_offer))]
    pub fn no_offer(&self, alloc: Global) -> Result<Answer, AllocError>
        requires { IsReady self.now }
        ensures value { IfOk result (λ answer. answer ≡ no_offer self.now) }
    {
        match coarsest_unfilled(self) {
            Some(level) => self.stuck(alloc, level),
            None => Ok(Answer::Idle),
        }
    }
}
