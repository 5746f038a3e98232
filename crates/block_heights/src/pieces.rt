//! The heights of a piece's cells, row by row.

ghost use Rattle.std.specs.Prelude.{◌≡◌, ◌↔◌, ◌≤◌, ◌<◌, ◌+◌, ◌*◌, ◌-◌, ◌/◌, ◌%◌, ◌^◌, ℕ, true, false, List, [], length, pos, neg_ℤ, ◌+ℤ◌, ◌≤ℤ◌, IsTrue, IfOk, IfErr, IfSome, IfNone, OnOk, slice_index_or};
ghost use Rattle.clip_regions.specs.Regions.{columns, rows, contains, IsPlaced};
ghost use Rattle.terrain_model.specs.Tile.{raw_sample};
ghost use Rattle.four_point.specs.Patches.{patch_height, IsOfBlock};
ghost use Rattle.four_point.specs.Steps.{IsStep, IsNear, value_of};
ghost use Rattle.block_heights.specs.Rows.{table_code, HasCodes};
ghost use Rattle.block_heights.specs.Pieces.{IsSmall, Lies, IsInPatch, within, column_of, row_of, IsCellAt, IsPieceUpTo, plain_height, coded_height, AreNearUpTo, HasOut, IsOutCell};
ghost use Rattle.clip_regions.specs.Regions.{area};
ghost use Rattle.rice_residuals.specs.Faults.{HasFault};
ghost use Rattle.store_model.specs.Blocks.{code_count};
ghost use Rattle.store_model.specs.Faults.{HasPlainFault};
ghost use Rattle.block_heights.specs.Decoded.{IsPart, IsNearZero, HasKind, HasHeights, HasPieceFault, HasCodedHeights, HasWordFault, HasPlainPieceFault};

use crate::block::{Block, Kind, PieceFault};
use crate::codes::{Sides, code_table, count_of};
use crate::rows::fill_rows;
use byteorder::{BigEndian, ByteOrder};
use clip_regions::Region;
use four_point::{BlockPredictions, Patch, bring, predict_block};
use rice_residuals::{BlockFault, read_block};

// How many columns and rows a region has.
#[tactic(auto, unfolding(clip_regions::specs::Regions::columns, clip_regions::specs::Regions::rows))]
pub(crate) fn sides_of(region: Region) -> Sides
    requires { IsSmall region }
    ensures columns { result.columns ≡ columns region }
    ensures rows { result.rows ≡ rows region }

    // Each is 1 to 8.
    ensures some_columns { 1 ≤ result.columns }
    ensures few_columns { result.columns ≤ 8 }
    ensures some_rows { 1 ≤ result.rows }
    ensures few_rows { result.rows ≤ 8 }
{
    Sides {
        columns: (region.x1 - region.x0 + 1) as usize,
        rows: (region.y1 - region.y0 + 1) as usize,
    }
}

// A cell of a level.
#[derive(Clone, Copy)]
pub(crate) struct Cell {
    pub(crate) i: i32,
    pub(crate) j: i32,
}

// The first cell of a region.
#[inline]
fn first_of(region: Region) -> Cell
    requires { IsSmall region }
    ensures { IsCellAt region 0 result.i result.j }
{
    Cell {
        i: region.x0,
        j: region.y0,
    }
}

// The cell after one of a region, row by row from the north and each row from the west.
#[inline]
fn next_cell(region: Region, cell: Cell) -> Cell
    requires region { IsSmall region }
    requires inside { Lies region cell.i cell.j }
    ensures { (k : ℕ) → cell.i ≡ column_of region k → cell.j ≡ row_of region k →
        IsCellAt region (k + 1) result.i result.j }
{
    if cell.i < region.x1 {
        Cell {
            i: cell.i + 1,
            j: cell.j,
        }
    } else {
        Cell {
            i: region.x0,
            j: cell.j + 1,
        }
    }
}

// Is the value a height of 16 bits or within half a step of one?
#[inline]
pub(crate) fn is_near(value: i32, step: u8) -> bool
    ensures { IsTrue result ↔ IsNear step value }
{
    let half = i32::from(step.saturating_sub(1) / 2);
    -32768 - half <= value && value <= 32767 + half
}

// How many columns and rows a cell lies after the first of its region.
#[derive(Clone, Copy)]
struct Place {
    a: usize,
    b: usize,
}

// Where a cell lies in its region.
fn place_in(region: Region, cell: Cell) -> Place
    requires region { IsSmall region }
    requires inside { Lies region cell.i cell.j }
    ensures column { cell.i ≡ region.x0 +ℤ pos result.a }
    ensures row { cell.j ≡ region.y0 +ℤ pos result.b }

    // Both are below the region's sides, and so below 8.
    ensures in_columns { result.a < columns region }
    ensures in_rows { result.b < rows region }
    ensures few_columns { result.a < 8 }
    ensures few_rows { result.b < 8 }
{
    Place {
        a: (cell.i - region.x0) as usize,
        b: (cell.j - region.y0) as usize,
    }
}

// The code of a cell of a region, by a table whose first column and row are those of the region.
fn code_at(table: &[[i32; 8]; 8], region: Region, cell: Cell) -> i32
    requires region { IsSmall region }
    requires inside { Lies region cell.i cell.j }
    requires in_range { (b : ℕ) → HasCodes (slice_index_or table.now b []) }
    ensures value { result ≡ table_code region table.now cell.i cell.j }
    ensures low { neg_ℤ (pos (2 ^ 17)) ≤ℤ result }
    ensures high { result ≤ℤ pos (2 ^ 17 - 1) }
{
    let place = place_in(region, cell);
    table[place.b][place.a]
}

// The block of which a piece is filled: its patch of coarser heights, its codes, its cells in the terrain and its step.
#[derive(Clone, Copy)]
pub(crate) struct Codes<'a> {
    pub(crate) patch: &'a Patch,
    pub(crate) predicted: &'a BlockPredictions<'a>,
    pub(crate) table: &'a [[i32; 8]; 8],
    pub(crate) inside: Region,
    pub(crate) step: u8,
}

// The height of a cell, 0 outside the terrain.
fn height_at(codes: Codes<'_>, cell: Cell) -> Result<i16, PieceFault>
    requires inside { IsSmall codes.inside }
    requires patch { IsInPatch codes.patch.now codes.inside }
    requires predicted { codes.predicted.now.patch.now ≡ codes.patch.now }
    requires step { IsStep codes.step }
    requires in_range { (b : ℕ) → HasCodes (slice_index_or codes.table.now b []) }

    // It is the height of the definition, whose value is near one of 16 bits; or the cell's value is not.
    ensures height { IfOk result (λ h. h ≡
        within codes.entry.inside (coded_height (patch_height codes.entry.patch.now) codes.entry.step
        (table_code codes.entry.inside codes.entry.table.now)) cell.i cell.j) }
    ensures near { OnOk result (IsTrue (contains codes.entry.inside cell.i cell.j) →
        IsNear codes.entry.step (value_of (patch_height codes.entry.patch.now) codes.entry.step cell.i cell.j
        (table_code codes.entry.inside codes.entry.table.now cell.i cell.j))) }
    ensures far { IfErr result (IsOutCell (patch_height codes.entry.patch.now) codes.entry.step
        (table_code codes.entry.inside codes.entry.table.now) codes.entry.inside cell.i cell.j) }
{
    if !codes.inside.contains(cell.i, cell.j) {
        return Ok(0);
    }
    let code = code_at(codes.table, codes.inside, cell);
    let value = codes.predicted.value_by(cell.i, cell.j, code, codes.step);
    if !is_near(value, codes.step) {
        return Err(PieceFault::OutOfRange {
            i: cell.i,
            j: cell.j,
            value,
        });
    }
    Ok(bring(value))
}

// Writes the heights of a piece's cells, one after another.
fn fill_cells(codes: Codes<'_>, cells: Region, out: &mut [i16]) -> Result<(), PieceFault>
    requires inside { IsSmall codes.inside }
    requires patch { IsInPatch codes.patch.now codes.inside }
    requires predicted { codes.predicted.now.patch.now ≡ codes.patch.now }
    requires step { IsStep codes.step }
    requires in_range { (b : ℕ) → HasCodes (slice_index_or codes.table.now b []) }

    // There are as many places as cells.
    requires cells { IsSmall cells }
    requires places { length out.old ≡ columns cells * rows cells }

    // They are the heights of the definition, or the first cell is named whose value is near none of 16 bits.
    ensures heights { OnOk result (IsPieceUpTo (length out.new) (within codes.entry.inside
        (coded_height (patch_height codes.entry.patch.now) codes.entry.step
        (table_code codes.entry.inside codes.entry.table.now))) cells out.new) }
    ensures near { OnOk result (AreNearUpTo (length out.new) (patch_height codes.entry.patch.now) codes.entry.step
        (table_code codes.entry.inside codes.entry.table.now) codes.entry.inside cells) }
    ensures far { IfErr result (HasOut (patch_height codes.entry.patch.now) codes.entry.step
        (table_code codes.entry.inside codes.entry.table.now) codes.entry.inside cells (length out.old)) }
{
    let mut cell = first_of(cells);
    for k in 0..out.len() {
        let here = cell;
        cell = next_cell(cells, here);
        let height = height_at(codes, here)?;
        out[k] = height;
    }
    Ok(())
}

// Are two regions the same one?
#[tactic(auto, using(crate::proofs::WholeRows::region_same))]
fn is_same(a: Region, b: Region) -> bool
    ensures { IsTrue result → a ≡ b }
{
    if a.x0 != b.x0 || a.y0 != b.y0 {
        return false;
    }
    a.x1 == b.x1 && a.y1 == b.y1
}

// Writes the heights of a piece's cells, row by row.
fn fill_coded(codes: Codes<'_>, cells: Region, out: &mut [i16]) -> Result<(), PieceFault>
    requires inside { IsSmall codes.inside }
    requires patch { IsInPatch codes.patch.now codes.inside }
    requires predicted { codes.predicted.now.patch.now ≡ codes.patch.now }
    requires step { IsStep codes.step }
    requires in_range { (b : ℕ) → HasCodes (slice_index_or codes.table.now b []) }

    // There are as many places as cells.
    requires cells { IsSmall cells }
    requires places { length out.old ≡ columns cells * rows cells }

    // They are the heights of the definition, or the first cell is named whose value is near none of 16 bits.
    ensures heights { OnOk result (IsPieceUpTo (length out.new) (within codes.entry.inside
        (coded_height (patch_height codes.entry.patch.now) codes.entry.step
        (table_code codes.entry.inside codes.entry.table.now))) cells out.new) }
    ensures near { OnOk result (AreNearUpTo (length out.new) (patch_height codes.entry.patch.now) codes.entry.step
        (table_code codes.entry.inside codes.entry.table.now) codes.entry.inside cells) }
    ensures far { IfErr result (HasOut (patch_height codes.entry.patch.now) codes.entry.step
        (table_code codes.entry.inside codes.entry.table.now) codes.entry.inside cells (length out.old)) }
{
    if is_same(cells, codes.inside) {
        fill_rows(codes, out)
    } else {
        fill_cells(codes, cells, out)
    }
}

// Number `n` of those that stand in two bytes each, the high byte first.
#[tactic(auto, unfolding(terrain_model::specs::Tile::raw_sample, terrain_model::specs::Tile::signed_pair))]
fn number_at(bytes: &[u8], n: usize) -> i16
    requires { 2 * n + 1 < length bytes.now }
    ensures { result ≡ raw_sample bytes.now n }
{
    BigEndian::read_i16(&bytes[2 * n..])
}

// The height of a cell by the bytes of a plain block, 0 outside the terrain.
fn plain_at(bytes: &[u8], inside: Region, cell: Cell) -> i16
    requires inside { IsSmall inside }
    requires whole { length bytes.now ≡ 2 * (columns inside * rows inside) }
    ensures { result ≡ within inside (plain_height bytes.now inside) cell.i cell.j }
{
    if !inside.contains(cell.i, cell.j) {
        return 0;
    }
    let width = sides_of(inside).columns;
    let place = place_in(inside, cell);
    number_at(bytes, place.b * width + place.a)
}

// Writes the heights of a piece's cells of a plain block, row by row.
fn fill_plain(bytes: &[u8], inside: Region, cells: Region, out: &mut [i16])
    requires inside { IsSmall inside }
    requires whole { length bytes.now ≡ 2 * (columns inside * rows inside) }
    requires cells { IsSmall cells }
    requires places { length out.old ≡ columns cells * rows cells }
    ensures { IsPieceUpTo (length out.new) (within inside (plain_height bytes.now inside)) cells out.new }
{
    let mut cell = first_of(cells);
    for k in 0..out.len() {
        out[k] = plain_at(bytes, inside, cell);
        cell = next_cell(cells, cell);
    }
}

// The heights of a piece of a block of codes.
fn word_piece(
    bytes: &[u8],
    inside: Region,
    step: u8,
    patch: &Patch,
    cells: Region,
    out: &mut [i16],
) -> Result<(), PieceFault>
    requires bytes { length bytes.now < 65536 }
    requires inside { IsSmall inside }
    requires patch { IsInPatch patch.now inside }
    requires step { IsStep step }

    // There are as many places as cells.
    requires cells { 0 < length out.old → IsSmall cells }
    requires places { length out.old ≡ columns cells * rows cells }

    // They are the heights of the definition, or the first fault is named.
    ensures heights { OnOk result (HasCodedHeights (patch_height patch.now) step inside cells bytes.now out.new) }
    ensures fault { IfErr result (HasWordFault (patch_height patch.now) step inside cells bytes.now (length out.old)) }
{
    let sides = sides_of(inside);
    let codes = match read_block(bytes, count_of(inside, sides)) {
        Ok(codes) => codes,
        Err(fault) => return Err(PieceFault::BadBlock { fault }),
    };
    let table = code_table(codes.used(), inside, sides);
    if out.is_empty() {
        return Ok(());
    }
    let predicted = predict_block(patch);
    let codes = Codes {
        patch,
        predicted: &predicted,
        table: &table,
        inside,
        step,
    };
    fill_coded(codes, cells, out)
}

// The fault of the bytes of a plain block of so many cells, if they have one.
fn plain_fault(bytes: &[u8], cells: usize) -> Option<BlockFault>
    requires bytes { length bytes.now < 65536 }
    requires cells { cells ≤ 64 }
    ensures whole { IfNone result (length bytes.now ≡ 2 * cells) }
    ensures fault { IfSome result (HasPlainFault cells bytes.now) }
{
    let length = bytes.len() as u32;
    let whole = 2 * cells as u32;
    if length < whole {
        return Some(BlockFault::CutShort { bit: 8 * length });
    }
    if length > whole {
        return Some(BlockFault::Excess {
            bytes: length - whole,
        });
    }
    None
}

// The heights of a piece of a plain block.
fn plain_piece(
    bytes: &[u8],
    inside: Region,
    cells: Region,
    out: &mut [i16],
) -> Result<(), PieceFault>
    requires bytes { length bytes.now < 65536 }
    requires inside { IsSmall inside }

    // There are as many places as cells.
    requires cells { 0 < length out.old → IsSmall cells }
    requires places { length out.old ≡ columns cells * rows cells }

    // They are the heights of the definition, or the length's fault is named.
    ensures whole { OnOk result (length bytes.now ≡ 2 * area inside) }
    ensures heights { OnOk result (IsPieceUpTo (length out.new) (within inside
        (plain_height bytes.now inside)) cells out.new) }
    ensures fault { IfErr result (λ fault. HasPlainPieceFault (area inside) bytes.now fault) }
{
    let sides = sides_of(inside);
    if let Some(fault) = plain_fault(bytes, sides.columns * sides.rows) {
        return Err(PieceFault::BadBlock { fault });
    }
    if !out.is_empty() {
        fill_plain(bytes, inside, cells, out);
    }
    Ok(())
}

// Writes a 0 for each cell.
fn fill_zeros(out: &mut [i16], cells: Region)
    ensures { IsPieceUpTo (length out.new) (λ i j. pos 0) cells out.new }
{
    for height in out.iter_mut() {
        *height = 0;
    }
}

/// The heights of some cells of a block, row by row from the north and each row from the west, in metres; 0 outside the
/// terrain. `patch` is the block's patch of coarser heights. After a refusal nothing is said of `out`. No memory is
/// taken.
pub fn piece_heights(
    block: &Block<'_>,
    patch: &Patch,
    cells: Region,
    out: &mut [i16],
) -> Result<(), PieceFault>
    requires placed { IsNearZero block.now.bx block.now.by }
    requires kind { HasKind block.now.kind block.now.bx block.now.by block.now.inside patch.now }
    requires step { IsStep block.now.step }

    // There are as many places as cells.
    requires cells { IsPart block.now.bx block.now.by cells }
    requires places { length out.old ≡ area cells }

    // They are the heights of the definition, or the first fault is named.
    ensures heights { OnOk result (HasHeights block.now.kind patch.now block.now.step block.now.inside cells out.new) }
    ensures fault { IfErr result (HasPieceFault block.now.kind patch.now block.now.step block.now.inside cells
        (length out.old)) }
{
    match block.kind {
        Kind::Outside => {
            fill_zeros(out, cells);
            Ok(())
        }
        Kind::Plain(bytes) => plain_piece(bytes, block.inside, cells, out),
        Kind::Words(bytes) => word_piece(bytes, block.inside, block.step, patch, cells, out),
    }
}
