//! The pins of one level.

ghost use Rattle.std.specs.Prelude.{◌≡◌, ℕ, ◌*◌, ◌<◌, ◌≤◌, true, false, Some, None, IfOk, IsSome, if◌then◌else◌};
ghost use Rattle.std.specs.Prelude.{length, replicate, slice_set, slice_index, slice_index_or, fold, flat_map};
ghost use Rattle.plan_model.specs.Limits.{IsSize};
ghost use Rattle.plan_model.specs.Blocks.{tiles_per_side};
ghost use Rattle.plan_model.specs.Tiles.{meets_tile, lesser};
ghost use Rattle.tile_pins.specs.Pinned.{first_frame, frame_on, no_pins};
ghost use Rattle.tile_pins.specs.Counts.{numbered, changed_by, AreChanged};

use crate::pin::Pin;
use clip_regions::Region;
use std::alloc::{AllocError, Global};
use std::marker::Model;
use strip_planner::{TileId, meets_tile, tiles_per_side};

/// Memory ran out.
#[derive(Clone, Copy, Debug, PartialEq, Eq)]
pub struct NoMemory;

/// The regions of one level that frames pin, by pass. A contract sees K and the pin of each of the 16
/// passes.
#[derive(Drop)]
pub struct Pins {
    k: u8,
    // How many of the regions meet each tile: by row, then by column.
    counts: Vec<u8>,
    pinned: [Option<Pin>; 16],
}

impl Model for Pins {
    ghost use Rattle.tile_pins.specs.Pinned.{Pinned};
    ghost use Rattle.tile_pins.specs.Counts.{AreCounted};

    ghost Value = { Pinned };

    ghost view = { λ s. record { k = s.k; pins = s.pinned } };

    ghost invariant = { λ s. AreCounted s.k s.pinned s.counts.items };
}

// A count of pins after one more is there, or one less, where it is on a tile.
fn changed(count: u8, met: bool, more: bool) -> u8
    requires room { met ≡ true → more ≡ true → count < 255 }
    requires some { met ≡ true → more ≡ false → 0 < count }
    ensures { result ≡ changed_by met more count }
{
    if !met {
        return count;
    }
    if more { count + 1 } else { count - 1 }
}

// The tile of a number among those of a torus.
#[tactic(auto, unfolding(crate::specs::Counts::numbered))]
fn numbered(side: u8, n: usize) -> TileId
    requires low { 0 < side }
    requires high { side ≤ 32 }
    requires n { n < side * side }
    ensures { result ≡ numbered side n }
{
    let side = usize::from(side);
    TileId {
        tx: (n % side) as u8,
        ty: (n / side) as u8,
    }
}

// Counts one more, or one less, at each tile that a region meets.
fn change(counts: &mut [u8], k: u8, region: Region, more: bool)
    requires size { IsSize k }
    requires many { length counts.old ≡ tiles_per_side k * tiles_per_side k }
    requires room { (n : ℕ) → meets_tile k region (numbered (tiles_per_side k) n) ≡ true → more ≡ true →
        slice_index counts.old n < 255 }
    requires some { (n : ℕ) → n < length counts.old → meets_tile k region (numbered (tiles_per_side k) n) ≡ true →
        more ≡ false → 0 < slice_index counts.old n }
    ensures { AreChanged k region more counts.old counts.new }
{
    let side = tiles_per_side(k);
    for n in 0..counts.len() {
        let met = meets_tile(k, region, numbered(side, n));
        counts[n] = changed(counts[n], met, more);
    }
}

// The lesser of a frame's number and that of a pin on the tile, where there are such.
fn lesser_on(k: u8, least: Option<u64>, pin: Option<Pin>, tile: TileId) -> Option<u64>
    requires { IsSize k }
    ensures { result ≡ fold lesser least (frame_on k tile pin) }
{
    match pin {
        None => least,
        Some(pin) => lesser_of(least, pin.frame, meets_tile(k, pin.region, tile)),
    }
}

// The lesser of a frame's number, where there is one, and of another that may count.
fn lesser_of(least: Option<u64>, frame: u64, counts: bool) -> Option<u64>
    ensures { result ≡ (if counts then lesser least frame else least) }
{
    if !counts {
        return least;
    }
    match least {
        None => Some(frame),
        Some(first) => Some(first.min(frame)),
    }
}

// The least number of a frame of which a pin is on the tile.
fn least_on(k: u8, pins: &[Option<Pin>], tile: TileId) -> Option<u64>
    requires { IsSize k }
    ensures { result ≡ fold lesser None (flat_map (frame_on k tile) pins.now) }
{
    let mut least = None;
    for pin in pins {
        least = lesser_on(k, least, *pin, tile);
    }
    least
}

impl Pins {
    /// No pins on a level of the torus of K, from 4 to 8. It fails where memory runs out.
    pub fn new(alloc: Global, k: u8) -> Result<Pins, NoMemory>
        requires { IsSize k }
        ensures { IfOk result (λ pins. pins ≡ no_pins k) }
    {
        let side = usize::from(tiles_per_side(k));
        match zeros(alloc, side * side) {
            Ok(counts) => Ok(Pins {
                k,
                counts,
                pinned: [None; 16],
            }),
            Err(_) => Err(NoMemory),
        }
    }

    /// Pins the tiles of a region for the frame of a pass, 0 to 15, which has no pin here.
    pub fn pin(&mut self, pass: u8, frame: u64, region: Region)
        requires pass { pass < 16 }
        requires free { slice_index_or self.old.pins pass None ≡ None }
        ensures { self.new ≡ record self.old {
          pins = slice_set self.old.pins pass (Some (record { frame = frame; region = region }));
        } }
    {
        change(self.counts.as_mut_slice(), self.k, region, true);
        self.pinned[pass as usize] = Some(Pin { frame, region });
    }

    /// Lets go what a pass, 0 to 15, has pinned here: it has a pin.
    pub fn unpin(&mut self, pass: u8)
        requires pass { pass < 16 }
        requires has { IsSome (slice_index_or self.old.pins pass None) }
        ensures { self.new ≡ record self.old { pins = slice_set self.old.pins pass None } }
    {
        let pin = self.pinned[pass as usize].unwrap();
        change(self.counts.as_mut_slice(), self.k, pin.region, false);
        self.pinned[pass as usize] = None;
    }

    // Whether the tile is known to have no pin: it is one of the torus, and its count is 0.
    fn is_free(&self, tile: TileId) -> bool
        ensures { result ≡ true → first_frame self.now tile ≡ None }
    {
        let side = tiles_per_side(self.k);
        if tile.tx >= side || tile.ty >= side {
            return false;
        }
        self.counts[usize::from(tile.ty) * usize::from(side) + usize::from(tile.tx)] == 0
    }

    /// The least number of a frame whose region meets the tile.
    pub fn first_frame(&self, tile: TileId) -> Option<u64>
        ensures { result ≡ first_frame self.now tile }
    {
        if self.is_free(tile) {
            return None;
        }
        least_on(self.k, &self.pinned, tile)
    }
}

// So many zeros.
fn zeros(alloc: Global, count: usize) -> Result<Vec<u8>, AllocError>
    ensures { IfOk result (λ v. v.items ≡ replicate count 0) }
{
    vec![in alloc; 0; count]
}
