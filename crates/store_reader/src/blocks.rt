//! One block: its bytes in the store, and its heights.

ghost use Rattle.std.specs.Prelude.{◌≡◌, ◌≢◌, ◌+◌, ◌*◌, ◌^◌, ◌<◌, ◌≤◌, ◌++◌, ℤ, length, drop, pos, ◌-ℤ◌, ◌+ℤ◌, ◌*ℤ◌, ◌≤ℤ◌, OnOk, IfErr, IfSome, IfNone, ℕ, slice_index_or};
ghost use Rattle.clip_regions.specs.Regions.{area};
ghost use Rattle.terrain_model.specs.Terrain.{level_height};
ghost use Rattle.four_point.specs.Patches.{patch_height, IsOfBlock};
ghost use Rattle.four_point.specs.Prediction.{prediction};
ghost use Rattle.four_point.specs.Steps.{IsStep};
ghost use Rattle.block_heights.specs.Decoded.{HasPlainPieceFault};
ghost use Rattle.store_model.specs.Format.{entry};
ghost use Rattle.store_model.specs.Faults.{IsCutEntry};
ghost use Rattle.store_reader.specs.Places.{IsSoundPlace};
ghost use Rattle.store_reader.specs.Decoding.{IsPlainOf, IsCodedOf, IsCodedFault, IsDecoded, IsFaultIn};
ghost use Rattle.store_reader.specs.Reading.{next_in};

use crate::sizes::Place;
use block_heights::{Block, Kind, PieceFault, piece_heights};
use byteorder::{BigEndian, ByteOrder};
use four_point::{Heights, Patch, patch_around};
use height_pyramid::Grid;
use store_model::StoreFault;

// What a level's blocks are: heights as they are, or words of codes over the heights of the next coarser level.
#[derive(Clone, Copy)]
pub(crate) enum Source<'a> {
    Plain,
    Over(&'a Grid),
}

// The heights of a level in a grid of its cells.
#[derive(Clone, Copy)]
struct Coarser<'a> {
    grid: &'a Grid,
}

impl Heights for Coarser<'_> {
    ghost heights = { λ c a b. level_height c.grid.now 0 a b };

    fn height(&self, a: i32, b: i32) -> i16 {
        self.grid.level_height(0, a, b)
    }
}

// The bytes of the block whose length stands at an offset, unless they aren't all there.
pub(crate) fn content_at(bytes: &[u8], at: usize) -> Option<&[u8]>
    requires { at ≤ length bytes.now }
    ensures short { IfSome result (λ content. length content.now < 2 ^ 16) }
    ensures inside { IfSome result (λ content. at + (2 + length content.now) ≤ length bytes.now) }
    ensures entry { IfSome result (λ content.
        drop at bytes.now ≡ entry content.now ++ drop (at + (2 + length content.now)) bytes.now) }
    ensures next { IfSome result (λ content. at + (2 + length content.now) ≡ next_in bytes.now at) }
    ensures cut { IfNone result (IsCutEntry (drop at bytes.now)) }
{
    let rest = &bytes[at..];
    if rest.len() < 2 {
        return None;
    }
    let length = usize::from(BigEndian::read_u16(rest));
    if rest.len() - 2 < length {
        return None;
    }
    Some(&rest[2..2 + length])
}

// Seven heights of a row of a level, which lie in it.
#[inline]
fn row_of(grid: &Grid, column: u32, row: u32) -> [i16; 7]
    requires columns { column + 7 ≤ grid.now.width }
    requires row { row < grid.now.height }
    ensures { (a : ℕ) → a < 7 → slice_index_or result a (pos 0) ≡
        level_height grid.now 0 (pos (column + a)) (pos row) }
{
    let mut heights = [0; 7];
    grid.copy_row(column, row, &mut heights);
    heights
}

// The patch of a block that begins at a column and a row and lies in the level whole.
fn inner_patch(grid: &Grid, column: u32, row: u32) -> Patch
    requires columns { column + 7 ≤ grid.now.width }
    requires rows { row + 7 ≤ grid.now.height }
    requires east { column ≤ 2 ^ 26 }
    requires south { row ≤ 2 ^ 26 }

    // It has its place, and predicts as the level does.
    ensures column { result.i0 ≡ pos column }
    ensures row { result.j0 ≡ pos row }
    ensures predictions { (i j : ℤ) → IsOfBlock (pos column) i → IsOfBlock (pos row) j
        → prediction (patch_height result) i j ≡ prediction (level_height grid.now 0) i j }
{
    Patch {
        i0: column as i32,
        j0: row as i32,
        h: [
            row_of(grid, column, row),
            row_of(grid, column, row + 1),
            row_of(grid, column, row + 2),
            row_of(grid, column, row + 3),
            row_of(grid, column, row + 4),
            row_of(grid, column, row + 5),
            row_of(grid, column, row + 6),
        ],
    }
}

// The patch of a block over the heights of the next coarser level.
fn patch_over(grid: &Grid, bx: i32, by: i32) -> Patch
    requires west { pos 0 ≤ℤ bx }
    requires east { bx ≤ℤ pos (2 ^ 24) }
    requires north { pos 0 ≤ℤ by }
    requires south { by ≤ℤ pos (2 ^ 24) }

    // It stands round the block, and predicts as the coarser level does.
    ensures column { result.i0 ≡ pos 4 *ℤ bx -ℤ pos 1 }
    ensures row { result.j0 ≡ pos 4 *ℤ by -ℤ pos 1 }
    ensures predictions { (i j : ℤ) → IsOfBlock (pos 4 *ℤ bx -ℤ pos 1) i → IsOfBlock (pos 4 *ℤ by -ℤ pos 1) j
        → prediction (patch_height result) i j ≡ prediction (level_height grid.now 0) i j }
{
    if bx > 0 && by > 0 {
        let (column, row) = (4 * bx as u32 - 1, 4 * by as u32 - 1);
        if column + 7 <= grid.width() && row + 7 <= grid.height() {
            return inner_patch(grid, column, row);
        }
    }
    patch_around(&Coarser { grid }, 4 * bx - 1, 4 * by - 1)
}

// A patch where no coarser heights are wanted.
const NO_PATCH: Patch = Patch {
    i0: 0,
    j0: 0,
    h: [[0; 7]; 7],
};

// Writes the heights of a block that has them as they are.
fn plain_block(place: Place, step: u8, content: &[u8], out: &mut [i16]) -> Result<(), PieceFault>
    requires place { IsSoundPlace place }
    requires step { IsStep step }
    requires content { length content.now < 65536 }
    requires places { length out.old ≡ area place.cells }
    ensures heights { OnOk result (IsPlainOf place.cells content.now out.new) }
    ensures fault { IfErr result (λ fault. HasPlainPieceFault (area place.cells) content.now fault) }
{
    let block = Block {
        level: place.level,
        bx: place.bx as i32,
        by: place.by as i32,
        inside: place.cells,
        step,
        kind: Kind::Plain(content),
    };
    piece_heights(&block, &NO_PATCH, place.cells, out)
}

// Writes the heights of a block that is a word of codes.
fn word_block(
    place: Place,
    step: u8,
    grid: &Grid,
    content: &[u8],
    out: &mut [i16],
) -> Result<(), PieceFault>
    requires place { IsSoundPlace place }
    requires step { IsStep step }
    requires content { length content.now < 65536 }
    requires places { length out.old ≡ area place.cells }
    ensures heights { OnOk result (IsCodedOf (level_height grid.now 0) step place.cells content.now out.new) }
    ensures fault { IfErr result (λ fault. IsCodedFault (level_height grid.now 0) step place.cells content.now fault) }
{
    let (bx, by) = (place.bx as i32, place.by as i32);
    let patch = patch_over(grid, bx, by);
    let block = Block {
        level: place.level,
        bx,
        by,
        inside: place.cells,
        step,
        kind: Kind::Words(content),
    };
    piece_heights(&block, &patch, place.cells, out)
}

// Writes the heights of a block's cells in the terrain, row by row, or answers the block's fault.
pub(crate) fn decode(
    place: Place,
    step: u8,
    source: Source<'_>,
    content: &[u8],
    out: &mut [i16],
) -> Result<(), StoreFault>
    requires place { IsSoundPlace place }
    requires step { IsStep step }
    requires content { length content.now < 65536 }
    requires places { length out.old ≡ area place.cells }

    // The places get the block's heights, or its fault is told.
    ensures places { length out.new ≡ area place.cells }
    ensures heights { OnOk result (IsDecoded source.entry step place.cells content.now out.new) }
    ensures fault { IfErr result (λ fault. IsFaultIn source.entry step place content.now fault) }
{
    let decoded = match source {
        Source::Plain => plain_block(place, step, content, out),
        Source::Over(grid) => word_block(place, step, grid, content, out),
    };
    match decoded {
        Ok(()) => Ok(()),
        Err(PieceFault::BadBlock { fault }) => Err(StoreFault::BadBlock {
            level: place.level,
            bx: place.bx,
            by: place.by,
            fault,
        }),
        Err(PieceFault::OutOfRange { i, j, value }) => Err(StoreFault::OutOfRange {
            level: place.level,
            i: i as u32,
            j: j as u32,
            value,
        }),
    }
}
