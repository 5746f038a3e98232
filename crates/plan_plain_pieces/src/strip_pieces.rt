//! The pieces of a strip, and the coarser cells that a piece needs.

ghost use Rattle.std.specs.Prelude.{◌≡◌, ◌^◌, ◌++◌, map, pos, neg_ℤ, ◌+ℤ◌, ◌-ℤ◌, ◌*ℤ◌, ◌≤ℤ◌, ◌<ℤ◌, ◌<◌, All, vec_len, IfOk};
ghost use Rattle.std.specs.Int.{int_gap};
ghost use Rattle.clip_regions.specs.FloorDivision.{floor_div};
ghost use Rattle.clip_regions.specs.Regions.{IsWithin};
ghost use Rattle.plan_model.specs.Strips.{piece_in, block_columns, pieces, need};
ghost use Rattle.plan_plain_pieces.specs.Placed.{IsShort};

use crate::blocks::block_cells;
use clip_regions::{Region, floor_div};
use plan_model::Piece;
use std::alloc::{AllocError, Global};

// A row of blocks.
#[derive(Clone, Copy)]
struct BlockRow {
    by: i32,
}

// The first column of blocks that a region meets.
fn first_column(region: Region) -> i32
    requires { IsWithin (2 ^ 24) region }
    ensures value { result ≡ floor_div region.x0 8 }
    ensures below { (pos 8 *ℤ result) ≤ℤ region.x0 }
    ensures above { region.x0 <ℤ (pos 8 *ℤ result +ℤ pos 8) }
{
    floor_div(region.x0, 8)
}

// The last column of blocks that a region meets.
fn last_column(region: Region) -> i32
    requires { IsWithin (2 ^ 24) region }
    ensures value { result ≡ floor_div region.x1 8 }
    ensures below { (pos 8 *ℤ result) ≤ℤ region.x1 }
    ensures above { region.x1 <ℤ (pos 8 *ℤ result +ℤ pos 8) }
{
    floor_div(region.x1, 8)
}

// The first row of blocks that a region meets.
fn first_row(region: Region) -> i32
    requires { IsWithin (2 ^ 24) region }
    ensures value { result ≡ floor_div region.y0 8 }
    ensures below { (pos 8 *ℤ result) ≤ℤ region.y0 }
    ensures above { region.y0 <ℤ (pos 8 *ℤ result +ℤ pos 8) }
{
    floor_div(region.y0, 8)
}

// The last row of blocks that a region meets.
fn last_row(region: Region) -> i32
    requires { IsWithin (2 ^ 24) region }
    ensures value { result ≡ floor_div region.y1 8 }
    ensures below { (pos 8 *ℤ result) ≤ℤ region.y1 }
    ensures above { region.y1 <ℤ (pos 8 *ℤ result +ℤ pos 8) }
{
    floor_div(region.y1, 8)
}

// How many columns of blocks a region meets.
fn column_count(region: Region) -> u32
    requires region { IsWithin (2 ^ 24) region }
    requires order { region.x0 ≤ℤ region.x1 }
    ensures value { result ≡ int_gap (floor_div region.x0 8) (floor_div region.x1 8 +ℤ pos 1) }
    ensures inside { (floor_div region.x0 8 +ℤ pos result) ≤ℤ pos (2 ^ 24) }
{
    let first = first_column(region);
    let last = last_column(region);
    (last + 1 - first) as u32
}

// How many rows of blocks a region meets.
fn row_count(region: Region) -> u32
    requires region { IsWithin (2 ^ 24) region }
    requires order { region.y0 ≤ℤ region.y1 }
    ensures value { result ≡ int_gap (floor_div region.y0 8) (floor_div region.y1 8 +ℤ pos 1) }
    ensures inside { (floor_div region.y0 8 +ℤ pos result) ≤ℤ pos (2 ^ 24) }
{
    let first = first_row(region);
    let last = last_row(region);
    (last + 1 - first) as u32
}

// The cells that a region shares with a block.
fn piece_in(region: Region, bx: i32, by: i32) -> Piece
    requires region { IsWithin (2 ^ 24) region }
    requires bx_low { neg_ℤ (pos (2 ^ 24)) ≤ℤ bx }
    requires bx_high { bx ≤ℤ pos (2 ^ 24) }
    requires by_low { neg_ℤ (pos (2 ^ 24)) ≤ℤ by }
    requires by_high { by ≤ℤ pos (2 ^ 24) }
    ensures value { result ≡ piece_in region bx by }
{
    let block = block_cells(bx, by);
    Piece {
        bx,
        by,
        cells: region.meet(block),
    }
}

// The piece of a region in a row of blocks, `i` columns from its first one.
fn piece_at(region: Region, row: BlockRow, i: u32) -> Piece
    requires region { IsWithin (2 ^ 24) region }
    requires inside { (floor_div region.x0 8 +ℤ pos i) ≤ℤ pos (2 ^ 24) }
    requires by_low { neg_ℤ (pos (2 ^ 24)) ≤ℤ row.by }
    requires by_high { row.by ≤ℤ pos (2 ^ 24) }
    ensures value { result ≡ piece_in region (floor_div region.x0 8 +ℤ pos i) row.by }
{
    let bx = first_column(region) + i as i32;
    piece_in(region, bx, row.by)
}

// The row of blocks that lies `i` rows below a region's first one.
fn row_at(region: Region, i: u32) -> BlockRow
    requires region { IsWithin (2 ^ 24) region }
    requires inside { (floor_div region.y0 8 +ℤ pos i) ≤ℤ pos (2 ^ 24) }
    ensures value { result.by ≡ floor_div region.y0 8 +ℤ pos i }
    ensures low { neg_ℤ (pos (2 ^ 24)) ≤ℤ result.by }
    ensures high { result.by ≤ℤ pos (2 ^ 24) }
{
    BlockRow {
        by: first_row(region) + i as i32,
    }
}

// Adds the pieces of a region in one row of blocks, from the west.
fn push_row(out: &mut Vec<Piece>, region: Region, row: BlockRow) -> Result<(), AllocError>
    requires region { IsWithin (2 ^ 24) region }
    requires order { region.x0 ≤ℤ region.x1 }
    requires by_low { neg_ℤ (pos (2 ^ 24)) ≤ℤ row.by }
    requires by_high { row.by ≤ℤ pos (2 ^ 24) }
    ensures value { IfOk result (λ _. out.new.items ≡ out.old.items ++
        map (λ bx. piece_in region bx row.by) (block_columns region)) }
{
    for i in 0..column_count(region) {
        let piece = piece_at(region, row, i);
        out.push(piece)?;
    }
    Ok(())
}

/// The pieces of a region: its meets with the world blocks, row by row from the north, each row from
/// the west. It fails where memory runs out.
pub fn pieces(alloc: Global, region: Region) -> Result<Vec<Piece>, AllocError>
    requires { IsWithin (2 ^ 24) region }
    ensures value { IfOk result (λ v. v.items ≡ pieces region) }
    ensures within { IfOk result (λ v. All (λ piece. IsWithin (2 ^ 24) piece.cells) v.items) }
    ensures few { IsShort region → IfOk result (λ v. vec_len v < 2 ^ 16) }
{
    let mut out = Vec::new(alloc);
    if region.is_empty() {
        return Ok(out);
    }
    for i in 0..row_count(region) {
        let row = row_at(region, i);
        push_row(&mut out, region, row)?;
    }
    Ok(out)
}

// The first coarser column or row that the cells from `cell` on need.
fn need_from(cell: i32) -> i32
    requires low { neg_ℤ (pos (2 ^ 25)) ≤ℤ cell }
    requires high { cell ≤ℤ pos (2 ^ 25) }
    ensures value { result ≡ floor_div cell 2 -ℤ pos 1 }
    ensures below { (pos 2 *ℤ result) ≤ℤ cell }
    ensures above { cell <ℤ (pos 2 *ℤ result +ℤ pos 4) }
{
    floor_div(cell, 2) - 1
}

// The last coarser column or row that the cells up to `cell` need.
fn need_to(cell: i32) -> i32
    requires low { neg_ℤ (pos (2 ^ 25)) ≤ℤ cell }
    requires high { cell ≤ℤ pos (2 ^ 25) }
    ensures value { result ≡ floor_div (cell +ℤ pos 1) 2 +ℤ pos 1 }
    ensures below { (pos 2 *ℤ result) ≤ℤ (cell +ℤ pos 3) }
    ensures above { cell <ℤ (pos 2 *ℤ result) }
{
    floor_div(cell + 1, 2) + 1
}

/// The coarser cells from which a region is predicted and blended: its half and one more cell on each
/// side.
pub fn need(cells: Region) -> Region
    requires { IsWithin (2 ^ 24) cells }
    ensures value { result ≡ need cells }
    ensures within { IsWithin (2 ^ 24) result }
{
    let west = need_from(cells.x0);
    let north = need_from(cells.y0);
    let east = need_to(cells.x1);
    let south = need_to(cells.y1);
    Region {
        x0: west,
        y0: north,
        x1: east,
        y1: south,
    }
}
