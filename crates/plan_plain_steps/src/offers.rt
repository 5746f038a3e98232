//! Which pieces can be claimed.

ghost use Rattle.std.specs.Prelude.{◌≡◌, ◌+◌, ◌^◌, ◌<◌, ◌≤◌, ◌++◌, ◌∷◌, [], ◌&&◌, not, Some, IfOk, OnOk, IfSome, All, filter, flat_map, map, length, is_some, vec_len, if◌then◌else◌};
ghost use Rattle.clip_regions.specs.Regions.{IsWithin};
ghost use Rattle.plan_model.specs.Strips.{first_of};
ghost use Rattle.plan_model.specs.States.{level_at, used_from_coarsest};
ghost use Rattle.plan_model.specs.Tiles.{is_held, is_pinned};
ghost use Rattle.plan_model.specs.Claims.{strip_at, is_finished, unfinished_pieces, pieces_at, held_tiles, held_needs, tile_of_piece, is_claimable, is_offered, offers_of, offers};
ghost use Rattle.plan_model.specs.Sound.{IsReady};

use crate::finished::{finished_in, unfinished_in};
use crate::state::PlainState;
use clip_regions::Region;
use plan_model::{Piece, TileId};
use plan_plain_pieces::{need, pieces, tile_of, tiles_met};
use plan_sound::offers_are_there;
use std::alloc::{AllocError, Global};
use std::marker::Model;

/// A piece of a level that can be claimed.
#[derive(Drop)]
pub struct PlainOffer {
    level: u8,
    piece: Piece,
}

impl Model for PlainOffer {
    ghost use Rattle.plan_model.specs.Claims.{Offer};

    ghost Value = { Offer };

    ghost view = { λ a. record { level = a.level; piece = a.piece } };
}

impl PlainOffer {
    // A piece of a level.
    fn new(level: u8, piece: Piece) -> PlainOffer
        ensures value { result ≡ record { level = level; piece = piece } }
    {
        PlainOffer { level, piece }
    }

    /// The piece's level.
    pub fn level(&self) -> u8
        ensures value { result ≡ self.now.level }
    {
        self.level
    }

    /// The piece.
    pub fn piece(&self) -> Piece
        ensures value { result ≡ self.now.piece }
    {
        self.piece
    }
}

// Those of some tiles of a level that are held.
fn held_of(
    alloc: Global,
    state: &PlainState,
    level: u8,
    some: &[TileId],
) -> Result<Vec<TileId>, AllocError>
    requires { IsReady state.now }
    ensures value { IfOk result (λ v. v.items ≡ filter (is_held state.now level) some.now) }
{
    some.iter()
        .copied()
        .filter(|t| state.is_held(level, *t))
        .collect(alloc)
}

impl PlainState {
    /// The pieces of a level's current strip. It fails where memory runs out.
    pub fn pieces_at(&self, alloc: Global, level: u8) -> Result<Vec<Piece>, AllocError>
        requires sound { IsReady self.now }
        requires level { level < length self.now.levels }
        ensures value { IfOk result (λ v. v.items ≡ pieces_at self.now level) }
        ensures within { IfOk result (λ v. All (λ piece. IsWithin (2 ^ 24) piece.cells) v.items) }
        ensures few { IfOk result (λ v. vec_len v < 2 ^ 16) }
    {
        match self.strip_at(alloc, level)? {
            Some(strip) => pieces(alloc, strip),
            None => Ok(Vec::new(alloc)),
        }
    }

    /// Whether the piece's block is that of a finished piece of a level.
    pub fn is_finished(&self, level: u8, piece: Piece) -> bool
        requires { level < length self.now.levels }
        ensures value { result ≡ is_finished (level_at self.now level).finished piece }
    {
        finished_in(self.levels.as_slice(), level, piece)
    }

    /// The pieces of a level's current strip that aren't finished. It fails where memory runs out.
    #[tactic(auto, unfolding(plan_model::specs::Claims::unfinished_pieces))]
    pub fn unfinished_pieces(&self, alloc: Global, level: u8) -> Result<Vec<Piece>, AllocError>
        requires sound { IsReady self.now }
        requires level { level < length self.now.levels }
        ensures value { IfOk result (λ v. v.items ≡ unfinished_pieces self.now level) }
        ensures within { IfOk result (λ v. All (λ piece. IsWithin (2 ^ 24) piece.cells) v.items) }
        ensures few { IfOk result (λ v. vec_len v < 2 ^ 16) }
    {
        let all = self.pieces_at(alloc, level)?;
        unfinished_in(alloc, self.levels.as_slice(), level, all.as_slice())
    }

    /// The held tiles of a level that a region meets: by row, then by column. It fails where memory runs
    /// out.
    #[tactic(auto, unfolding(plan_model::specs::Claims::held_tiles))]
    pub fn held_tiles(
        &self,
        alloc: Global,
        level: u8,
        region: Region,
    ) -> Result<Vec<TileId>, AllocError>
        requires sound { IsReady self.now }
        requires region { IsWithin (2 ^ 24) region }
        ensures value { IfOk result (λ v. v.items ≡ held_tiles self.now level region) }
    {
        let met = tiles_met(alloc, self.k, region)?;
        held_of(alloc, self, level, met.as_slice())
    }

    /// The coarser tiles that the piece of a level needs and that are held. It fails where memory runs
    /// out.
    pub fn held_needs(
        &self,
        alloc: Global,
        level: u8,
        piece: Piece,
    ) -> Result<Vec<TileId>, AllocError>
        requires sound { IsReady self.now }
        requires level { level < length self.now.levels }
        requires cells { IsWithin (2 ^ 24) piece.cells }
        ensures value { IfOk result (λ v. v.items ≡ held_needs self.now level piece) }
    {
        let coarser = need(piece.cells);
        self.held_tiles(alloc, level + 1, coarser)
    }

    /// The torus tile of a piece.
    pub fn tile_of_piece(&self, piece: Piece) -> TileId
        requires { IsReady self.now }
        ensures value { result ≡ tile_of_piece self.now piece }
    {
        tile_of(self.k, piece.bx, piece.by)
    }

    // Whether a piece of a level isn't finished and its tile isn't held.
    fn is_free(&self, level: u8, piece: Piece) -> bool
        requires sound { IsReady self.now }
        requires level { level < length self.now.levels }
        ensures value { result ≡ (not (is_finished (level_at self.now level).finished piece) &&
            not (is_held self.now level (tile_of_piece self.now piece))) }
    {
        !self.is_finished(level, piece) && !self.is_held(level, self.tile_of_piece(piece))
    }

    // Whether the tile of a piece of a level isn't pinned, and no coarser tile that it needs is held.
    fn is_clear(&self, alloc: Global, level: u8, piece: Piece) -> Result<bool, AllocError>
        requires sound { IsReady self.now }
        requires level { level < length self.now.levels }
        requires cells { IsWithin (2 ^ 24) piece.cells }
        ensures value { IfOk result (λ clear. clear ≡ (not (is_pinned self.now level (tile_of_piece self.now piece)) &&
            not (is_some (first_of (held_needs self.now level piece))))) }
    {
        let pinned = self.is_pinned(alloc, level, self.tile_of_piece(piece))?;
        let held = self.held_needs(alloc, level, piece)?;
        Ok(!pinned && held.as_slice().first().is_none())
    }

    /// Whether a piece of a level can be claimed: it isn't finished, its tile is neither held nor pinned,
    /// and no coarser tile that it needs is held. It fails where memory runs out.
    #[tactic(auto, unfolding(plan_model::specs::Claims::is_claimable))]
    pub fn is_claimable(&self, alloc: Global, level: u8, piece: Piece) -> Result<bool, AllocError>
        requires sound { IsReady self.now }
        requires level { level < length self.now.levels }
        requires cells { IsWithin (2 ^ 24) piece.cells }
        ensures value { IfOk result (λ claimable. claimable ≡ is_claimable self.now level piece) }
    {
        let free = self.is_free(level, piece);
        let clear = self.is_clear(alloc, level, piece)?;
        Ok(free && clear)
    }

    /// Whether a strip of a level is offered: the level is the coarsest, or the strip's need is filled on
    /// the coarser level.
    #[tactic(auto, unfolding(plan_model::specs::Claims::is_offered))]
    pub fn is_offered(&self, level: u8, strip: Region) -> bool
        requires sound { IsReady self.now }
        requires level { level < length self.now.levels }
        requires strip { IsWithin (2 ^ 24) strip }
        ensures value { result ≡ is_offered self.now level strip }
    {
        if level as usize + 1 == self.levels.len() {
            return true;
        }
        self.filled_at(level + 1).holds(need(strip))
    }
}

// Adds the offer of a piece where it is wanted.
fn push_where(
    out: &mut Vec<PlainOffer>,
    level: u8,
    piece: Piece,
    wanted: bool,
) -> Result<(), AllocError>
    ensures value { OnOk result (out.new.items ≡ out.old.items ++
        (if wanted then record { level = level; piece = piece } ∷ [] else [])) }
{
    if wanted {
        out.push(PlainOffer::new(level, piece))?;
    }
    Ok(())
}

// Those of some pieces of a level that can be claimed.
fn claimable_of(
    alloc: Global,
    state: &PlainState,
    level: u8,
    some: &[Piece],
) -> Result<Vec<PlainOffer>, AllocError>
    requires sound { IsReady state.now }
    requires level { level < length state.now.levels }
    requires cells { All (λ piece. IsWithin (2 ^ 24) piece.cells) some.now }
    ensures value { IfOk result (λ v. v.items ≡
        map (λ piece. record { level = level; piece = piece }) (filter (is_claimable state.now level) some.now)) }
{
    let mut out = Vec::new(alloc);
    for piece in some {
        let claimable = state.is_claimable(alloc, level, *piece)?;
        push_where(&mut out, level, *piece, claimable)?;
    }
    Ok(out)
}

// The claimable pieces of a strip of a level, where the strip is offered.
fn offers_of(
    alloc: Global,
    state: &PlainState,
    level: u8,
    strip: Region,
) -> Result<Vec<PlainOffer>, AllocError>
    requires sound { IsReady state.now }
    requires level { level < length state.now.levels }
    requires strip { IsWithin (2 ^ 24) strip }
    ensures value { IfOk result (λ v. v.items ≡ offers_of state.now level (Some strip)) }
{
    if !state.is_offered(level, strip) {
        return Ok(Vec::new(alloc));
    }
    let all = pieces(alloc, strip)?;
    claimable_of(alloc, state, level, all.as_slice())
}

// The claimable pieces of a level.
fn offers_at(alloc: Global, state: &PlainState, level: u8) -> Result<Vec<PlainOffer>, AllocError>
    requires sound { IsReady state.now }
    requires level { level < length state.now.levels }
    ensures value { IfOk result (λ v. v.items ≡ offers_of state.now level (strip_at state.now level)) }
{
    match state.strip_at(alloc, level)? {
        Some(strip) => offers_of(alloc, state, level, strip),
        None => Ok(Vec::new(alloc)),
    }
}

// All claimable pieces of the levels in use, the coarsest level first.
fn offers_from_coarsest(alloc: Global, state: &PlainState) -> Result<Vec<PlainOffer>, AllocError>
    requires { IsReady state.now }
    ensures value { IfOk result (λ v. v.items ≡
        flat_map (λ level. offers_of state.now level (strip_at state.now level)) (used_from_coarsest state.now)) }
{
    let mut out = Vec::new(alloc);
    for level in (state.finest()..state.level_count()).rev() {
        let mut more = offers_at(alloc, state, level)?;
        out.append(&mut more)?;
    }
    Ok(out)
}

impl PlainState {
    /// All claimable pieces: the levels in use from the coarsest, each strip's pieces in their order. It
    /// fails where memory runs out.
    #[tactic(auto, unfolding(plan_model::specs::Claims::offers))]
    pub fn offers(&self, alloc: Global) -> Result<Vec<PlainOffer>, AllocError>
        requires { IsReady self.now }
        ensures value { IfOk result (λ v. v.items ≡ offers self.now) }
        ensures below { IfOk result (λ v. All (λ offer. offer.level < length self.now.levels) v.items) }
    {
        offers_are_there();
        offers_from_coarsest(alloc, self)
    }
}
