//! The walk over the pieces of a strip.

ghost use Rattle.std.specs.Prelude.{◌≡◌, ◌^◌, ◌≤◌, ◌<◌, ◌+◌, ◌*◌, pos, neg_ℤ, ◌+ℤ◌, ◌-ℤ◌, ◌≤ℤ◌, ◌<ℤ◌, ◌*ℤ◌, false, []};
ghost use Rattle.std.specs.Iterator.{YieldsFirst, item_count};
ghost use Rattle.clip_regions.specs.FloorDivision.{floor_div};
ghost use Rattle.clip_regions.specs.Regions.{is_empty, IsWithin, IsPlaced};
ghost use Rattle.plan_model.specs.Blocks.{block_cells};
ghost use Rattle.plan_model.specs.Strips.{piece_in, pieces};
ghost use Rattle.plan_laws.specs.Pieces.{blocks_between};
ghost use Rattle.strip_planner.specs.Left.{AreNear};
ghost use Rattle.strip_planner.specs.Planned.{IsPlanned};

use clip_regions::Region;
use plan_model::Piece;
use std::marker::Model;

/// The pieces of a strip that are left, row by row from the north and each row from the west: an iterator
/// that takes constant time a step. A contract sees the list of them.
#[derive(Drop)]
pub struct Pieces {
    strip: Region,
    // The first column of blocks that the strip meets, and how many.
    first: i32,
    columns: u32,
    // The block of the next piece, how many pieces its row has left, and how many rows come after it.
    bx: i32,
    by: i32,
    row_left: u32,
    rows_left: u32,
}

impl Model for Pieces {
    ghost use Rattle.std.specs.Prelude.{List, pos, ◌+ℤ◌, ◌++◌};
    ghost use Rattle.plan_model.specs.declared.tiles.Piece.{Piece};
    ghost use Rattle.strip_planner.specs.Left.{row_from, rows_from, IsWalk};

    ghost Value = { List Piece };

    ghost view = { λ s. row_from s.strip s.bx s.row_left s.by ++
        rows_from s.strip s.first s.columns (s.by +ℤ pos 1) s.rows_left };

    ghost invariant = { λ s. IsWalk s.strip s.first s.columns s.bx s.by s.row_left s.rows_left };
}

// The eighth part of a cell's column or row, rounded down: that of its block.
#[tactic(auto, unfolding(clip_regions::specs::FloorDivision::floor_div))]
pub(crate) fn eighth(cell: i32) -> i32
    ensures value { result ≡ floor_div cell 8 }
    ensures below { (pos 8 *ℤ result) ≤ℤ cell }
    ensures above { cell <ℤ (pos 8 *ℤ result +ℤ pos 8) }
{
    cell.div_euclid(8)
}

// How many blocks lie from that of the first to that of the last of some cells of an axis.
pub(crate) fn block_count(first: i32, last: i32) -> u32
    requires { first ≤ℤ last }
    ensures value { result ≡ blocks_between first last }
    ensures some { 1 ≤ result }
    ensures ends { (pos 8 *ℤ (floor_div first 8 +ℤ pos result)) ≤ℤ (last +ℤ pos 8) }
    ensures few { (last -ℤ first) ≤ℤ pos 254 → result ≤ 33 }
{
    let low = eighth(first);
    let high = eighth(last);
    (high + 1 - low) as u32
}

// The cells of a block.
fn block_cells(bx: i32, by: i32) -> Region
    requires columns { AreNear bx 1 }
    requires rows { AreNear by 0 }
    ensures value { result ≡ block_cells bx by }
    ensures placed { IsPlaced result }
{
    Region {
        x0: 8 * bx,
        y0: 8 * by,
        x1: 8 * bx + 7,
        y1: 8 * by + 7,
    }
}

// The cells that a region shares with a block.
fn piece_in(region: Region, bx: i32, by: i32) -> Piece
    requires region { IsWithin (2 ^ 24) region }
    requires columns { AreNear bx 1 }
    requires rows { AreNear by 0 }
    ensures { result ≡ piece_in region bx by }
{
    Piece {
        bx,
        by,
        cells: region.meet(block_cells(bx, by)),
    }
}

impl Pieces {
    // The walk over no piece.
    fn none() -> Self
        ensures { result ≡ [] }
    {
        Pieces {
            strip: Region::empty(),
            first: 0,
            columns: 1,
            bx: 0,
            by: 0,
            row_left: 0,
            rows_left: 0,
        }
    }

    // The walk over the pieces of a strip.
    pub(crate) fn over(strip: Region) -> Self
        requires { IsPlanned strip }
        ensures { result ≡ pieces strip }
    {
        if strip.is_empty() {
            return Pieces::none();
        }
        let first = eighth(strip.x0);
        let columns = block_count(strip.x0, strip.x1);
        Pieces {
            strip,
            first,
            columns,
            bx: first,
            by: eighth(strip.y0),
            row_left: columns,
            rows_left: block_count(strip.y0, strip.y1) - 1,
        }
    }
}

impl Iterator for Pieces {
    type Item = Piece;

    ghost next_gives = { YieldsFirst (λ left. left) };

    ghost remaining = { item_count (λ left. left) };

    fn next(&mut self) -> Option<Piece> {
        if self.row_left == 0 {
            return None;
        }
        let piece = piece_in(self.strip, self.bx, self.by);
        if self.row_left == 1 && self.rows_left > 0 {
            self.bx = self.first;
            self.by += 1;
            self.row_left = self.columns;
            self.rows_left -= 1;
            return Some(piece);
        }
        self.bx += 1;
        self.row_left -= 1;
        Some(piece)
    }
}
