//! World blocks of 8 × 8 cells, and the torus tile in which a block is kept.

ghost use Rattle.std.specs.Prelude.{◌≡◌, ◌^◌, ◌≤◌, pos, neg_ℤ, ◌≤ℤ◌};
ghost use Rattle.clip_regions.specs.FloorDivision.{floor_rem};
ghost use Rattle.clip_regions.specs.Regions.{IsPlaced};
ghost use Rattle.plan_model.specs.Limits.{IsSize};
ghost use Rattle.plan_model.specs.Window.{torus_side};
ghost use Rattle.plan_model.specs.Blocks.{block_of, block_cells, wrapped_place, tile_of_cell, tiles_per_side, tile_of, same_number, same_tile, same_block};

use clip_regions::{Region, floor_div, wrap};
use level_frame::torus_side;
use plan_model::{Piece, TileId};

/// The cells of the block in column `bx` and row `by`.
pub fn block_cells(bx: i32, by: i32) -> Region
    requires bx_low { neg_ℤ (pos (2 ^ 24)) ≤ℤ bx }
    requires bx_high { bx ≤ℤ pos (2 ^ 24) }
    requires by_low { neg_ℤ (pos (2 ^ 24)) ≤ℤ by }
    requires by_high { by ≤ℤ pos (2 ^ 24) }
    ensures value { result ≡ block_cells bx by }
    ensures placed { IsPlaced result }
{
    Region {
        x0: 8 * bx,
        y0: 8 * by,
        x1: 8 * bx + 7,
        y1: 8 * by + 7,
    }
}

/// The block of the cell in column `i` and row `j`, as its column and row among the blocks.
#[tactic(auto, unfolding(plan_model::specs::Blocks::block_of))]
pub fn block_of(i: i32, j: i32) -> (i32, i32)
    ensures value { result ≡ block_of i j }
{
    (floor_div(i, 8), floor_div(j, 8))
}

// The place of a cell's column or row in a torus.
fn place_of(k: u8, cell: i32) -> u8
    requires { IsSize k }
    ensures value { result ≡ floor_rem cell (torus_side k) }
{
    wrap(cell, torus_side(k)) as u8
}

/// The place of the cell in column `i` and row `j` in the torus.
#[tactic(auto, unfolding(plan_model::specs::Blocks::wrapped_place))]
pub fn wrapped_place(k: u8, i: i32, j: i32) -> (u8, u8)
    requires { IsSize k }
    ensures value { result ≡ wrapped_place k i j }
{
    (place_of(k, i), place_of(k, j))
}

/// The torus tile of the cell in column `i` and row `j`.
#[tactic(auto, unfolding(plan_model::specs::Blocks::tile_of_cell))]
pub fn tile_of_cell(k: u8, i: i32, j: i32) -> TileId
    requires { IsSize k }
    ensures value { result ≡ tile_of_cell k i j }
{
    TileId {
        tx: place_of(k, i) / 8,
        ty: place_of(k, j) / 8,
    }
}

/// How many tiles a torus has on each side: 2^K / 8.
pub fn tiles_per_side(k: u8) -> u8
    requires { IsSize k }
    ensures value { result ≡ tiles_per_side k }
    ensures low { 2 ≤ result }
    ensures high { result ≤ 32 }
{
    (torus_side(k) as u32 / 8) as u8
}

// The place of a block's column or row among the tiles of a torus.
fn tile_place(k: u8, b: i32) -> u8
    requires { IsSize k }
    ensures value { result ≡ floor_rem b (tiles_per_side k) }
{
    wrap(b, i32::from(tiles_per_side(k))) as u8
}

/// The torus tile of the block in column `bx` and row `by`.
pub fn tile_of(k: u8, bx: i32, by: i32) -> TileId
    requires { IsSize k }
    ensures value { result ≡ tile_of k bx by }
{
    let tx = tile_place(k, bx);
    let ty = tile_place(k, by);
    TileId { tx, ty }
}

/// Whether two tiles are one.
#[tactic(auto, unfolding(plan_model::specs::Blocks::same_tile))]
pub fn same_tile(t: TileId, u: TileId) -> bool
    ensures value { result ≡ same_tile t u }
{
    t.tx == u.tx && t.ty == u.ty
}

// Whether two pieces lie in one column of blocks.
#[tactic(auto, unfolding(plan_model::specs::Blocks::same_number))]
fn same_column(p: Piece, q: Piece) -> bool
    ensures { result ≡ same_number p.bx q.bx }
{
    p.bx <= q.bx && q.bx <= p.bx
}

// Whether two pieces lie in one row of blocks.
#[tactic(auto, unfolding(plan_model::specs::Blocks::same_number))]
fn same_row(p: Piece, q: Piece) -> bool
    ensures { result ≡ same_number p.by q.by }
{
    p.by <= q.by && q.by <= p.by
}

/// Whether two pieces lie in one block.
#[tactic(auto, unfolding(plan_model::specs::Blocks::same_block))]
pub fn same_block(p: Piece, q: Piece) -> bool
    ensures value { result ≡ same_block p q }
{
    same_column(p, q) && same_row(p, q)
}
