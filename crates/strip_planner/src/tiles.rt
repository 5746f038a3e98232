//! Torus tiles, and which of them a region meets.

ghost use Rattle.std.specs.Prelude.{◌≡◌, ◌≤◌, ◌<◌, ◌≤ℤ◌};
ghost use Rattle.clip_regions.specs.FloorDivision.{floor_rem, floor_div};
ghost use Rattle.plan_model.specs.Limits.{IsSize};
ghost use Rattle.plan_model.specs.Blocks.{tile_of, tiles_per_side};
ghost use Rattle.plan_model.specs.Tiles.{meets_tile};
ghost use Rattle.plan_laws.specs.Pieces.{blocks_between};
ghost use Rattle.plan_laws.specs.Tiles.{meets_column, meets_row};
ghost use Rattle.strip_planner.specs.Met.{has_place, ahead};

use crate::piece_walk::{block_count, eighth};
use clip_regions::Region;
use plan_laws::tiles_are_met_by_sides;
use plan_model::TileId;

/// How many tiles a torus has on each side: 2^K / 8.
#[tactic(auto, unfolding(plan_model::specs::Blocks::tiles_per_side, plan_model::specs::Window::torus_side))]
pub fn tiles_per_side(k: u8) -> u8
    requires { IsSize k }
    ensures value { result ≡ tiles_per_side k }
    ensures low { 2 ≤ result }
    ensures high { result ≤ 32 }
{
    match k {
        4 => 2,
        5 => 4,
        6 => 8,
        7 => 16,
        _ => 32,
    }
}

// The place of a block's column or row among 32.
#[tactic(auto, unfolding(clip_regions::specs::FloorDivision::floor_rem))]
fn place_of_32(b: i32) -> u8
    ensures { result ≡ floor_rem b 32 }
{
    b.rem_euclid(32) as u8
}

// The place of a block's column or row among the tiles of a torus. A torus has a power of two of them on
// each side, and at most 32.
fn tile_place(k: u8, b: i32) -> u8
    requires { IsSize k }
    ensures value { result ≡ floor_rem b (tiles_per_side k) }
    ensures inside { result < tiles_per_side k }
{
    place_of_32(b) & (tiles_per_side(k) - 1)
}

/// The torus tile of the block in column `bx` and row `by`.
pub fn tile_of(k: u8, bx: i32, by: i32) -> TileId
    requires { IsSize k }
    ensures value { result ≡ tile_of k bx by }
    ensures column { result.tx < tiles_per_side k }
    ensures row { result.ty < tiles_per_side k }
{
    let tx = tile_place(k, bx);
    let ty = tile_place(k, by);
    TileId { tx, ty }
}

// How far place `t` lies after `from` among the tiles of an axis, going round.
#[tactic(auto, unfolding(crate::specs::Met::ahead))]
fn ahead(side: u8, from: u8, t: u8) -> u8
    requires high { side ≤ 32 }
    requires from { from < side }
    requires t { t < side }
    ensures value { result ≡ ahead side from t }
    ensures inside { result < side }
{
    if from <= t { t - from } else { t + side - from }
}

// Whether the blocks from that of cell `first` to that of cell `last` on an axis have the place `t` among
// the tiles of a torus.
fn is_met(k: u8, first: i32, last: i32, t: u8) -> bool
    requires k { IsSize k }
    requires order { first ≤ℤ last }
    ensures { result ≡ has_place (tiles_per_side k) (floor_div first 8) (blocks_between first last) t }
{
    let side = tiles_per_side(k);
    if t >= side {
        return false;
    }
    let from = tile_place(k, eighth(first));
    u32::from(ahead(side, from, t)) < block_count(first, last)
}

/// Whether a region has a cell in a block of the tile.
pub fn meets_tile(k: u8, region: Region, tile: TileId) -> bool
    requires { IsSize k }
    ensures { result ≡ meets_tile k region tile }
{
    tiles_are_met_by_sides();
    if region.is_empty() {
        return false;
    }
    is_met(k, region.x0, region.x1, tile.tx) && is_met(k, region.y0, region.y1, tile.ty)
}
