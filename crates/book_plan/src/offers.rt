//! Which piece can be claimed.

ghost use Rattle.std.specs.Prelude.{◌≡◌, ℕ, ◌+◌, ◌<◌, ◌≤◌, true, filter, flat_map, length, slice_index_or, is_some};
ghost use Rattle.std.specs.Option.{option_map, option_or};
ghost use Rattle.plan_model.specs.Strips.{first_of, need};
ghost use Rattle.plan_model.specs.States.{used_from_coarsest};
ghost use Rattle.plan_model.specs.Tiles.{is_held, is_pinned};
ghost use Rattle.plan_model.specs.Claims.{strip_at, held_needs, tile_of_piece, is_offered, offers};
ghost use Rattle.plan_model.specs.Steps.{claimed_job};
ghost use Rattle.book_plan.specs.Slots.{all_pieces};
ghost use Rattle.book_plan.specs.Desks.{state_of, shelf_at, IsStanding};
ghost use Rattle.book_plan.specs.Offered.{is_free, is_claimable_slot, is_strip_offered, pieces_offered, jobs_on};

use crate::desk::PlanDesk;
use crate::levels::PlanLevel;
use crate::slots::Slot;
use clip_regions::Region;
use plan_laws::pieces_have_different_blocks;
use plan_model::{JobNote, Piece, TileId};
use strip_planner::{need, tile_of};

impl PlanDesk {
    // The torus tile of a piece.
    pub(crate) fn tile_of_piece(&self, piece: Piece) -> TileId
        requires { IsStanding self.now }
        ensures value { result ≡ tile_of_piece (state_of self.now) piece }
    {
        tile_of(self.k, piece.bx, piece.by)
    }

    // Whether the tile of a level is held.
    #[tactic(auto, unfolding(plan_model::specs::Tiles::is_held))]
    fn is_held(&self, level: u8, tile: TileId) -> bool
        requires { IsStanding self.now }
        ensures { result ≡ is_held (state_of self.now) level tile }
    {
        self.holder(level, tile).is_some()
    }

    // Whether the tile of a level is pinned.
    #[tactic(auto, unfolding(plan_model::specs::Tiles::is_pinned))]
    fn is_pinned(&self, level: u8, tile: TileId) -> bool
        requires { IsStanding self.now }
        ensures { result ≡ is_pinned (state_of self.now) level tile }
    {
        self.pinner(level, tile).is_some()
    }

    // Whether a coarser tile that the piece of a level needs is held.
    fn needs_held(&self, level: u8, piece: Piece) -> bool
        requires standing { IsStanding self.now }
        requires level { level < length self.now.levels }
        ensures { result ≡ is_some (first_of (held_needs (state_of self.now) level piece)) }
    {
        self.first_held(level + 1, need(piece.cells)).is_some()
    }

    // Whether a piece of a level that isn't finished can be claimed: its tile is neither held nor pinned,
    // and no coarser tile that it needs is held.
    #[tactic(auto, unfolding(crate::specs::Offered::is_free))]
    fn is_free(&self, level: u8, piece: Piece) -> bool
        requires standing { IsStanding self.now }
        requires level { level < length self.now.levels }
        ensures { result ≡ is_free (state_of self.now) level piece }
    {
        let tile = self.tile_of_piece(piece);
        if self.is_held(level, tile) {
            return false;
        }
        if self.is_pinned(level, tile) {
            return false;
        }
        !self.needs_held(level, piece)
    }

    // Whether the piece of a slot of a level can be claimed.
    #[tactic(auto, unfolding(crate::specs::Offered::is_claimable_slot))]
    fn is_claimable(&self, level: u8, slot: Slot) -> bool
        requires standing { IsStanding self.now }
        requires level { level < length self.now.levels }
        ensures { result ≡ is_claimable_slot (state_of self.now) level slot }
    {
        if slot.finished {
            return false;
        }
        self.is_free(level, slot.piece)
    }

    // The first of some slots of a level whose piece can be claimed, where all before `from` are finished.
    fn first_claimable(&self, level: u8, slots: &[Slot], from: usize) -> Option<Piece>
        requires standing { IsStanding self.now }
        requires level { level < length self.now.levels }
        requires inside { from ≤ length slots.now }
        requires before { (n : ℕ) (d : Slot) → n < from → (slice_index_or slots.now n d).finished ≡ true }
        ensures { result ≡ first_of (all_pieces (filter (is_claimable_slot (state_of self.now) level) slots.now)) }
    {
        for n in from..slots.len() {
            if self.is_claimable(level, slots[n]) {
                return Some(slots[n].piece);
            }
        }
        None
    }

    // Whether a strip of a level is offered: the level is the coarsest, or the strip's need is filled on
    // the coarser level.
    #[tactic(auto, unfolding(plan_model::specs::Claims::is_offered))]
    fn is_offered(&self, level: u8, strip: Region) -> bool
        requires standing { IsStanding self.now }
        requires level { level < length self.now.levels }
        ensures value { result ≡ is_offered (state_of self.now) level strip }
    {
        if level + 1 == self.level_count() {
            return true;
        }
        self.filled_at(level + 1).holds(need(strip))
    }

    // Whether a level has a strip that is offered.
    fn is_strip_offered(&self, level: u8) -> bool
        requires standing { IsStanding self.now }
        requires level { level < length self.now.levels }
        ensures { result ≡ is_strip_offered (state_of self.now) level (strip_at (state_of self.now) level) }
    {
        match self.strip_at(level) {
            Some(strip) => self.is_offered(level, strip),
            None => false,
        }
    }

    // The first piece of a level with slots that can be claimed, where its strip is offered.
    fn offer_in(&self, level: u8, shelf: &PlanLevel) -> Option<Piece>
        requires standing { IsStanding self.now }
        requires level { level < length self.now.levels }
        requires shelf { shelf.now ≡ shelf_at self.now level }
        ensures { result ≡ first_of (pieces_offered (state_of self.now) level) }
    {
        pieces_have_different_blocks();
        if shelf.is_done() {
            return None;
        }
        if !self.is_strip_offered(level) {
            return None;
        }
        self.first_claimable(level, shelf.slots(), shelf.first())
    }

    // The first piece of a level that can be claimed.
    fn offer_on(&self, level: u8) -> Option<Piece>
        requires standing { IsStanding self.now }
        requires level { level < length self.now.levels }
        ensures { result ≡ first_of (pieces_offered (state_of self.now) level) }
    {
        self.offer_in(level, &self.levels[level as usize])
    }

    // The job that the first piece of a level makes that can be claimed.
    fn job_on(&self, level: u8) -> Option<JobNote>
        requires standing { IsStanding self.now }
        requires level { level < length self.now.levels }
        ensures { result ≡ first_of (jobs_on (state_of self.now) level) }
    {
        match self.offer_on(level) {
            Some(piece) => {
                let plan = self.plan_at(level);
                Some(JobNote { level, piece, plan })
            }
            None => None,
        }
    }

    // The job of a coarser level, where there is one, and else that of a level.
    fn job_or(&self, first: Option<JobNote>, level: u8) -> Option<JobNote>
        requires standing { IsStanding self.now }
        requires level { level < length self.now.levels }
        ensures { result ≡ option_or first (first_of (jobs_on (state_of self.now) level)) }
    {
        match first {
            Some(job) => Some(job),
            None => self.job_on(level),
        }
    }

    // The first job from the coarsest level in use on.
    fn first_from_coarsest(&self) -> Option<JobNote>
        requires { IsStanding self.now }
        ensures { result
            ≡ first_of (flat_map (jobs_on (state_of self.now)) (used_from_coarsest (state_of self.now))) }
    {
        let mut first = None;
        for level in (self.finest()..self.level_count()).rev() {
            first = self.job_or(first, level);
        }
        first
    }

    // The job that the first piece that can be claimed makes: the levels in use from the coarsest, each
    // strip's pieces in their order.
    pub(crate) fn first_job(&self) -> Option<JobNote>
        requires { IsStanding self.now }
        ensures { result ≡ option_map (claimed_job (state_of self.now)) (first_of (offers (state_of self.now))) }
    {
        self.first_from_coarsest()
    }
}
