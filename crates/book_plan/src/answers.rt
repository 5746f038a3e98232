//! What a claim is answered where nothing can be claimed.

ghost use Rattle.std.specs.Prelude.{◌≡◌, ◌+◌, ◌<◌, ◌≤◌, not, filter, length, slice_index_or, IfSome};
ghost use Rattle.plan_model.specs.Strips.{first_of};
ghost use Rattle.plan_model.specs.States.{is_whole, used_from_coarsest};
ghost use Rattle.plan_model.specs.Claims.{held_answer, busy_answer, needed_answer, blocked, unfinished_pieces};
ghost use Rattle.plan_model.specs.Claims.{ripe_or_blocked, no_offer};
ghost use Rattle.plan_model.specs.Rounds.{is_ripe};
ghost use Rattle.book_plan.specs.Slots.{open_pieces, empty_shelf};
ghost use Rattle.book_plan.specs.Desks.{state_of, IsStanding};

use crate::desk::PlanDesk;
use crate::levels::PlanLevel;
use crate::passes::or_found;
use plan_laws::pieces_have_different_blocks;
use plan_model::{Answer, Piece, TileId};
use strip_planner::need;

// The coarsest level in use whose filled region isn't its window.
fn coarsest_unfilled(desk: &PlanDesk) -> Option<u8>
    requires { IsStanding desk.now }
    ensures value { result ≡ first_of (filter
        (λ level. not (is_whole (state_of desk.now) level)) (used_from_coarsest (state_of desk.now))) }
    ensures there { IfSome result (λ level. level < length desk.now.levels) }
{
    let mut first = None;
    for level in (desk.finest()..desk.level_count()).rev() {
        let unfilled = !desk.is_whole(level);
        first = or_found(first, unfilled, level);
    }
    first
}

// The first piece of the current strip of one of some levels that isn't finished.
fn first_open_of(levels: &[PlanLevel], level: u8) -> Option<Piece>
    requires { level < length levels.now }
    ensures { result ≡ first_of (open_pieces (slice_index_or levels.now level empty_shelf).slots) }
{
    levels[level as usize].first_open()
}

impl PlanDesk {
    // The answer that a tile of a level is held by a pass, where one holds it.
    pub(crate) fn held_answer(&self, level: u8, tile: TileId) -> Option<Answer>
        requires { IsStanding self.now }
        ensures value { result ≡ held_answer (state_of self.now) level tile }
    {
        match self.holder(level, tile) {
            Some(pass) => Some(Answer::Held { level, tile, pass }),
            None => None,
        }
    }

    // The answer that a tile of a level is pinned by a frame, where one pins it.
    fn busy_answer(&self, level: u8, tile: TileId) -> Option<Answer>
        requires { IsStanding self.now }
        ensures value { result ≡ busy_answer (state_of self.now) level tile }
    {
        match self.pinner(level, tile) {
            Some(frame) => Some(Answer::Busy { level, tile, frame }),
            None => None,
        }
    }

    // The answer that a coarser tile that the piece of a level needs is held, where one is.
    fn needed_answer(&self, level: u8, piece: Piece) -> Option<Answer>
        requires standing { IsStanding self.now }
        requires level { level < length self.now.levels }
        ensures value { result ≡ needed_answer (state_of self.now) level piece }
    {
        match self.first_held(level + 1, need(piece.cells)) {
            Some(tile) => self.held_answer(level + 1, tile),
            None => None,
        }
    }

    // What stands in the way of a piece of a level, the first that is there: its tile's holder, the frame
    // that pins its tile, the holder of a coarser tile that it needs.
    fn blocked(&self, level: u8, piece: Piece) -> Option<Answer>
        requires standing { IsStanding self.now }
        requires level { level < length self.now.levels }
        ensures value { result ≡ blocked (state_of self.now) level piece }
    {
        let tile = self.tile_of_piece(piece);
        let held = self.held_answer(level, tile);
        let busy = self.busy_answer(level, tile);
        let needed = self.needed_answer(level, piece);
        held.or(busy.or(needed))
    }

    // The first piece of a level's current strip that isn't finished.
    fn first_unfinished(&self, level: u8) -> Option<Piece>
        requires standing { IsStanding self.now }
        requires level { level < length self.now.levels }
        ensures { result ≡ first_of (unfinished_pieces (state_of self.now) level) }
    {
        pieces_have_different_blocks();
        first_open_of(self.levels.as_slice(), level)
    }

    // Whether all pieces of a level's current strip are finished.
    #[tactic(auto, unfolding(plan_model::specs::Rounds::is_ripe))]
    pub(crate) fn is_ripe(&self, level: u8) -> bool
        requires standing { IsStanding self.now }
        requires level { level < length self.now.levels }
        ensures { result ≡ is_ripe (state_of self.now) level }
    {
        match self.first_unfinished(level) {
            Some(_) => false,
            None => self.strip_at(level).is_some(),
        }
    }

    // What is answered where nothing can be claimed and this is the coarsest level that isn't whole.
    fn stuck(&self, level: u8) -> Answer
        requires standing { IsStanding self.now }
        requires level { level < length self.now.levels }
        ensures value { result
            ≡ ripe_or_blocked (state_of self.now) level (first_of (unfinished_pieces (state_of self.now) level)) }
    {
        match self.first_unfinished(level) {
            Some(piece) => self.blocked(level, piece).unwrap_or(Answer::Idle),
            None => Answer::Ripe { level },
        }
    }

    // What is answered where nothing can be claimed.
    #[tactic(auto, unfolding(plan_model::specs::Claims::no_offer))]
    pub(crate) fn no_offer(&self) -> Answer
        requires { IsStanding self.now }
        ensures value { result ≡ no_offer (state_of self.now) }
    {
        match coarsest_unfilled(self) {
            Some(level) => self.stuck(level),
            None => Answer::Idle,
        }
    }
}
