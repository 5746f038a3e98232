//! The heights of all cells of a block in the terrain, row by row.

ghost use Rattle.std.specs.Prelude.{◌≡◌, ◌≤◌, ◌<◌, ◌+◌, ◌*◌, ◌^◌, ℕ, [], length, pos, neg_ℤ, ◌+ℤ◌, ◌-ℤ◌, ◌*ℤ◌, ◌≤ℤ◌, ◌<ℤ◌, IfOk, IfErr, IfSome, OnOk, slice_index_or};
ghost use Rattle.clip_regions.specs.Regions.{columns, rows};
ghost use Rattle.four_point.specs.Blocks.{first_cell, AreSmall};
ghost use Rattle.four_point.specs.Patches.{patch_height, IsOfBlock, IsAtMost};
ghost use Rattle.four_point.specs.Steps.{IsStep, IsNear, value_of, brought};
ghost use Rattle.block_heights.specs.Rows.{table_code, HasCodes};
ghost use Rattle.block_heights.specs.Pieces.{IsSmall, IsInPatch, within, IsPieceUpTo, coded_height, AreNearUpTo, HasOut, row_value, IsOutValue, IsExact};

use crate::block::PieceFault;
use crate::pieces::{Cell, Codes, is_near, sides_of};
use four_point::bring;

// A row of a block's cells in the terrain.
#[derive(Clone, Copy)]
struct Row {
    // What is predicted for the eight cells of the block's row, of which `before` come before the first one here.
    predicted: [i32; 8],
    before: usize,
    // The codes of the cells, from the first one on.
    codes: [i32; 8],
    // The first cell.
    cell: Cell,
    step: u8,
}

// How many columns of the block whose patch begins at a coarser column come before one of its columns.
#[inline]
fn columns_before(coarser: i32, column: i32) -> usize
    requires { IsOfBlock coarser column }
    ensures place { column ≡ first_cell coarser +ℤ pos result }
    ensures few { result < 8 }
{
    (column - coarser - coarser - 2) as usize
}

// Row `b` of a block's cells in the terrain.
#[inline]
fn row_at(codes: Codes<'_>, b: usize) -> Row
    requires inside { IsSmall codes.inside }
    requires patch { IsInPatch codes.patch.now codes.inside }
    requires predicted { codes.predicted.now.patch.now ≡ codes.patch.now }
    requires in_range { (b : ℕ) → HasCodes (slice_index_or codes.table.now b []) }
    requires row { b < rows codes.inside }
    requires few { b < 8 }

    // It begins with the row's first cell, and has its columns.
    ensures column { result.cell.i ≡ codes.entry.inside.x0 }
    ensures row { result.cell.j ≡ codes.entry.inside.y0 +ℤ pos b }
    ensures room { result.before + columns codes.entry.inside ≤ 8 }
    ensures step { result.step ≡ codes.entry.step }

    // Each column has the value of its cell.
    ensures values { (a : ℕ) → result.before + a < 8 →
        row_value result.predicted result.before result.codes result.step a ≡ value_of (patch_height codes.entry.patch.now)
        codes.entry.step (codes.entry.inside.x0 +ℤ pos a) (codes.entry.inside.y0 +ℤ pos b)
        (table_code codes.entry.inside codes.entry.table.now
        (codes.entry.inside.x0 +ℤ pos a) (codes.entry.inside.y0 +ℤ pos b)) }
    ensures sizes { AreSmall result.predicted }
    ensures in_range { HasCodes result.codes }
{
    let inside = codes.inside;
    let j = inside.y0 + b as i32;
    Row {
        predicted: codes.predicted.row(j),
        before: columns_before(codes.patch.i0, inside.x0),
        codes: codes.table[b],
        cell: Cell { i: inside.x0, j },
        step: codes.step,
    }
}

// So many steps, in metres.
#[inline]
fn steps_of(code: i32, step: u8) -> i32
    requires low { neg_ℤ (pos (2 ^ 17)) ≤ℤ code }
    requires high { code <ℤ pos (2 ^ 17) }
    requires step { step ≤ 255 }
    ensures value { result ≡ pos step *ℤ code }
    ensures size { IsAtMost 33423360 result }
{
    i32::from(step) * code
}

// A prediction and so many steps, in metres.
#[inline]
fn value_by(prediction: i32, code: i32, step: u8) -> i32
    requires prediction { IsAtMost 51200 prediction }
    requires low { neg_ℤ (pos (2 ^ 17)) ≤ℤ code }
    requires high { code <ℤ pos (2 ^ 17) }
    ensures value { result ≡ prediction +ℤ pos step *ℤ code }
    ensures size { IsAtMost 33474560 result }
{
    prediction + steps_of(code, step)
}

// The value in column `a` of a row, in metres.
#[inline]
fn value_in(row: &Row, a: usize) -> i32
    requires sizes { AreSmall row.now.predicted }
    requires in_range { HasCodes row.now.codes }
    requires column { row.now.before + a < 8 }
    ensures value { result ≡ row_value row.now.predicted row.now.before row.now.codes row.now.step a }
    ensures size { IsAtMost 33474560 result }
{
    value_by(row.predicted[row.before + a], row.codes[a], row.step)
}

// The height in column `a` of a row.
#[inline]
fn height_in(row: &Row, a: usize) -> Result<i16, PieceFault>
    requires sizes { AreSmall row.now.predicted }
    requires in_range { HasCodes row.now.codes }
    requires column { row.now.before + a < 8 }
    requires near_zero { row.now.cell.i ≤ℤ pos (2 ^ 28) }

    // It is that of the column's value, which is near one of 16 bits; or the value is not.
    ensures height { IfOk result (λ h. h ≡
        brought (row_value row.now.predicted row.now.before row.now.codes row.now.step a)) }
    ensures near { OnOk result (IsNear row.now.step
        (row_value row.now.predicted row.now.before row.now.codes row.now.step a)) }
    ensures far { IfErr result (IsOutValue (row_value row.now.predicted row.now.before row.now.codes row.now.step a)
        row.now.step (row.now.cell.i +ℤ pos a) row.now.cell.j) }
{
    let value = value_in(row, a);
    if !is_near(value, row.step) {
        return Err(PieceFault::OutOfRange {
            i: row.cell.i + a as i32,
            j: row.cell.j,
            value,
        });
    }
    Ok(bring(value))
}

// A value less -32768, the lowest height of 16 bits, which is below 65536 where the value is such a height.
#[inline]
fn raised(value: i32) -> u32
    requires { IsAtMost 33474560 value }
    ensures { result < 65536 → value ≡ pos result -ℤ pos 32768 }
{
    ((value + 67_141_632) as u32).wrapping_sub(67_108_864)
}

// The height of a raised value that is below 65536.
#[inline]
fn lowered(raised: u32) -> i16
    ensures { raised < 65536 → result ≡ pos raised -ℤ pos 32768 }
{
    ((raised & 0xffff) as i32 - 32768) as i16
}

// The heights of a row of eight cells, if all of their values are heights of 16 bits. One test tells that.
#[inline]
fn exact_row(row: &Row) -> Option<[i16; 8]>
    requires sizes { AreSmall row.now.predicted }
    requires in_range { HasCodes row.now.codes }
    requires whole { row.now.before ≡ 0 }
    ensures { IfSome result (λ heights. (a : ℕ) → a < 8 → IsExact
        (row_value row.now.predicted row.now.before row.now.codes row.now.step a) (slice_index_or heights a (pos 0))) }
{
    let mut heights = [0; 8];
    let mut all = 0;
    for a in 0..8 {
        let raised = raised(value_in(row, a));
        heights[a] = lowered(raised);
        all |= raised;
    }
    if all >= 65536 {
        return None;
    }
    Some(heights)
}

// Writes eight heights from place `start` on.
#[inline]
fn put_row(out: &mut [i16], start: usize, heights: [i16; 8])
    requires { start + 8 ≤ length out.old }
    ensures row { (a : ℕ) → a < 8 → slice_index_or out.new (start + a) (pos 0) ≡ slice_index_or heights a (pos 0) }
    ensures kept { (k : ℕ) → k < start → slice_index_or out.new k (pos 0) ≡ slice_index_or out.old k (pos 0) }
{
    out[start..start + 8].copy_from_slice(&heights);
}

// Writes the heights of row `b` of a block's cells in the terrain from place `start` on, behind those of the rows
// before.
fn fill_row(
    codes: Codes<'_>,
    b: usize,
    start: usize,
    width: usize,
    out: &mut [i16],
) -> Result<(), PieceFault>
    requires inside { IsSmall codes.inside }
    requires patch { IsInPatch codes.patch.now codes.inside }
    requires predicted { codes.predicted.now.patch.now ≡ codes.patch.now }
    requires step { IsStep codes.step }
    requires in_range { (b : ℕ) → HasCodes (slice_index_or codes.table.now b []) }

    // There are as many places as cells.
    requires row { b < rows codes.inside }
    requires few { b < 8 }
    requires width { width ≡ columns codes.inside }
    requires start { start ≡ b * width }
    requires room { start + width ≤ length out.old }
    requires places { length out.old ≡ columns codes.inside * rows codes.inside }

    // The rows before are filled.
    requires heights { IsPieceUpTo start (within codes.inside (coded_height (patch_height codes.patch.now)
        codes.step (table_code codes.inside codes.table.now))) codes.inside out.old }
    requires near { AreNearUpTo start (patch_height codes.patch.now) codes.step
        (table_code codes.inside codes.table.now) codes.inside codes.inside }

    // So is this one, or the first cell is named whose value is near none of 16 bits.
    ensures heights { OnOk result (IsPieceUpTo (start + width) (within codes.entry.inside
        (coded_height (patch_height codes.entry.patch.now) codes.entry.step
        (table_code codes.entry.inside codes.entry.table.now))) codes.entry.inside out.new) }
    ensures near { OnOk result (AreNearUpTo (start + width) (patch_height codes.entry.patch.now) codes.entry.step
        (table_code codes.entry.inside codes.entry.table.now) codes.entry.inside codes.entry.inside) }
    ensures far { IfErr result (HasOut (patch_height codes.entry.patch.now) codes.entry.step
        (table_code codes.entry.inside codes.entry.table.now) codes.entry.inside codes.entry.inside
        (columns codes.entry.inside * rows codes.entry.inside)) }
{
    let row = row_at(codes, b);
    if width == 8 {
        if let Some(heights) = exact_row(&row) {
            put_row(out, start, heights);
            return Ok(());
        }
    }
    for a in 0..width {
        let height = height_in(&row, a)?;
        out[start + a] = height;
    }
    Ok(())
}

// Writes the heights of all cells of a block in the terrain, row by row.
pub(crate) fn fill_rows(codes: Codes<'_>, out: &mut [i16]) -> Result<(), PieceFault>
    requires inside { IsSmall codes.inside }
    requires patch { IsInPatch codes.patch.now codes.inside }
    requires predicted { codes.predicted.now.patch.now ≡ codes.patch.now }
    requires step { IsStep codes.step }
    requires in_range { (b : ℕ) → HasCodes (slice_index_or codes.table.now b []) }

    // There are as many places as cells.
    requires places { length out.old ≡ columns codes.inside * rows codes.inside }

    // They are the heights of the definition, or the first cell is named whose value is near none of 16 bits.
    ensures heights { OnOk result (IsPieceUpTo (length out.new) (within codes.entry.inside
        (coded_height (patch_height codes.entry.patch.now) codes.entry.step
        (table_code codes.entry.inside codes.entry.table.now))) codes.entry.inside out.new) }
    ensures near { OnOk result (AreNearUpTo (length out.new) (patch_height codes.entry.patch.now) codes.entry.step
        (table_code codes.entry.inside codes.entry.table.now) codes.entry.inside codes.entry.inside) }
    ensures far { IfErr result (HasOut (patch_height codes.entry.patch.now) codes.entry.step
        (table_code codes.entry.inside codes.entry.table.now) codes.entry.inside codes.entry.inside (length out.old)) }
{
    let sides = sides_of(codes.inside);
    let mut start = 0;
    for b in 0..sides.rows {
        fill_row(codes, b, start, sides.columns, out)?;
        start += sides.columns;
    }
    Ok(())
}
