//! Frames that a pass begins and ends.

ghost use Rattle.std.specs.Prelude.{◌≡◌, ◌+◌, ◌^◌, ◌<◌, ◌≤◌, ◌++◌, None, Some, IfOk, OnOk, OnErr, All, flat_map, map, length, slice_index_or};
ghost use Rattle.clip_regions.specs.Regions.{empty_region, IsWithin};
ghost use Rattle.plan_model.specs.States.{from_coarsest, filled_regions};
ghost use Rattle.plan_model.specs.Claims.{held_tiles};
ghost use Rattle.plan_model.specs.Steps.{held_under, actives_at, frame_begun, begin_step, end_step};
ghost use Rattle.plan_model.specs.Sound.{IsReady};

use crate::pinners::region_at;
use crate::state::{PlainFrame, PlainLevel, PlainState};
use clip_regions::Region;
use plan_model::{Answer, TileId, Work};
use plan_plain_pieces::actives;
use plan_sound::filled_regions_are_near;
use std::alloc::{AllocError, Global};
use std::marker::Model;

/// A tile of a level.
#[derive(Drop)]
pub struct PlainTile {
    level: u8,
    tile: TileId,
}

impl Model for PlainTile {
    ghost use Rattle.plan_model.specs.Steps.{LevelTile};

    ghost Value = { LevelTile };

    ghost view = { λ a. record { level = a.level; tile = a.tile } };
}

impl PlainTile {
    // A tile of a level.
    fn new(level: u8, tile: TileId) -> PlainTile
        ensures value { result ≡ record { level = level; tile = tile } }
    {
        PlainTile { level, tile }
    }

    /// The tile's level.
    pub fn level(&self) -> u8
        ensures value { result ≡ self.now.level }
    {
        self.level
    }

    /// The tile.
    pub fn tile(&self) -> TileId
        ensures value { result ≡ self.now.tile }
    {
        self.tile
    }
}

// The filled regions of some levels, the finest first.
fn filled_regions(alloc: Global, levels: &[PlainLevel]) -> Result<Vec<Region>, AllocError>
    ensures value { IfOk result (λ v. v.items ≡ map (λ level. level.filled) levels.now) }
{
    levels.iter().map(|level| level.filled()).collect(alloc)
}

// Adds some tiles of a level.
fn push_tiles(out: &mut Vec<PlainTile>, level: u8, tiles: &[TileId]) -> Result<(), AllocError>
    ensures value { OnOk result (out.new.items ≡ out.old.items ++
        map (λ t. record { level = level; tile = t }) tiles.now) }
{
    for tile in tiles {
        out.push(PlainTile::new(level, *tile))?;
    }
    Ok(())
}

// The held tiles that some active regions meet: the levels from the coarsest, each in the order of tiles.
fn held_under(
    alloc: Global,
    state: &PlainState,
    active: &[Region],
) -> Result<Vec<PlainTile>, AllocError>
    requires sound { IsReady state.now }
    requires active { All (IsWithin (2 ^ 24)) active.now }
    ensures value { IfOk result (λ v. v.items ≡
        flat_map (λ level. map (λ t. record { level = level; tile = t })
        (held_tiles state.now level (slice_index_or active.now level empty_region))) (from_coarsest state.now)) }
{
    let mut out = Vec::new(alloc);
    for level in (0..state.level_count()).rev() {
        let held = state.held_tiles(alloc, level, region_at(active, level))?;
        push_tiles(&mut out, level, held.as_slice())?;
    }
    Ok(out)
}

impl PlainState {
    /// The active regions, the finest first: a level that is left out shows nothing. It fails where memory
    /// runs out.
    pub fn actives(&self, alloc: Global) -> Result<Vec<Region>, AllocError>
        requires { IsReady self.now }
        ensures value { IfOk result (λ v. v.items ≡ actives_at self.now) }
        ensures within { IfOk result (λ v. All (IsWithin (2 ^ 24)) v.items) }
    {
        filled_regions_are_near();
        let filled = filled_regions(alloc, self.levels.as_slice())?;
        actives(alloc, self.k, self.finest(), filled.as_slice())
    }

    // Pass p has a new frame of these active regions.
    fn open_frame(&mut self, p: u8, actives: Vec<Region>) -> Answer
        requires sound { IsReady self.old }
        requires pass { p < 16 }
        requires actives { actives.items ≡ actives_at self.old }
        ensures answer { result ≡ (frame_begun self.old p None).answer }
        ensures state { self.new ≡ (frame_begun self.old p None).state }
    {
        let number = self.begun;
        let frame = PlainFrame {
            number,
            x: self.x,
            y: self.y,
            actives,
        };
        self.set_pass(p, Work::Draws(frame));
        self.begun = number + 1;
        Answer::Frame { number }
    }

    /// Pass `p` begins a frame of the active regions. Where memory runs out it fails and changes nothing.
    #[tactic(auto, unfolding(plan_model::specs::Steps::begin_step, plan_model::specs::Steps::held_under))]
    pub fn begin(&mut self, alloc: Global, p: u8) -> Result<Answer, AllocError>
        requires sound { IsReady self.old }
        requires pass { p < 16 }
        ensures answer { IfOk result (λ answer. answer ≡ (begin_step self.old p).answer) }
        ensures state { OnOk result (self.new ≡ (begin_step self.old p).state) }
        ensures unchanged { OnErr result (self.new ≡ self.old) }
    {
        if self.has_work(p) {
            return Ok(Answer::HasWork);
        }
        let actives = self.actives(alloc)?;
        let held = held_under(alloc, self, actives.as_slice())?;
        match held.as_slice().first() {
            Some(held) => {
                let answer = self.held_answer(held.level(), held.tile());
                Ok(answer.unwrap_or(Answer::Idle))
            }
            None => Ok(self.open_frame(p, actives)),
        }
    }

    /// Pass `p` ends its frame.
    #[tactic(auto, unfolding(plan_model::specs::Steps::end_step))]
    pub fn end(&mut self, p: u8) -> Answer
        requires sound { IsReady self.old }
        requires pass { p < 16 }
        ensures answer { result ≡ (end_step self.old p).answer }
        ensures state { self.new ≡ (end_step self.old p).state }
    {
        match self.frame_at(p) {
            Some(number) => {
                self.set_pass(p, Work::Free);
                Answer::Closed { number }
            }
            None => Answer::NoFrame,
        }
    }
}
