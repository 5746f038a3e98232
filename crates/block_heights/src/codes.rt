//! The codes of a block's cells.

ghost use Rattle.std.specs.Prelude.{◌≡◌, ◌↔◌, ◌≤◌, ◌<◌, ◌+◌, ◌*◌, ◌^◌, ◌&&◌, ◌==◌, not, ℕ, true, false, List, [], length, take, All, pos, neg_ℤ, ◌+ℤ◌, ◌≤ℤ◌, IsTrue, slice_index_or, if◌then◌else◌};
ghost use Rattle.clip_regions.specs.FloorDivision.{floor_rem};
ghost use Rattle.clip_regions.specs.Regions.{columns, rows, IsPlaced};
ghost use Rattle.rice_residuals.specs.Code.{IsResidual};
ghost use Rattle.store_model.specs.Blocks.{is_coded, code_count, coded_values, IsCoding};
ghost use Rattle.block_heights.specs.Rows.{coded_columns, row_values, table_values, coded_before, spread_out, cell_of, table_code, IsCodeRow, HasCodes};

use clip_regions::Region;

// Is `z` odd?
#[tactic(auto, unfolding(clip_regions::specs::FloorDivision::floor_rem))]
#[inline]
fn is_even(z: i32) -> bool
    ensures { result ≡ (floor_rem z 2 == 0) }
{
    z.rem_euclid(2) == 0
}

/// Whether a code stands for the cell in column `i` and row `j`: whether one of the two is odd.
#[tactic(auto, unfolding(store_model::specs::Blocks::is_coded))]
#[inline]
pub fn is_coded(i: i32, j: i32) -> bool
    ensures { result ≡ is_coded i j }
{
    !(is_even(i) && is_even(j))
}

// Whether a code stands for the cell in column `a` and row `b` of a region.
#[inline]
fn is_coded_in(region: Region, a: usize, b: usize) -> bool
    requires placed { IsPlaced region }
    requires column { a ≤ 8 }
    requires row { b ≤ 8 }
    ensures { result ≡ is_coded (region.x0 +ℤ pos a) (region.y0 +ℤ pos b) }
{
    is_coded(region.x0 + a as i32, region.y0 + b as i32)
}

// How many columns and rows a region of a block has.
#[derive(Clone, Copy)]
pub(crate) struct Sides {
    pub(crate) columns: usize,
    pub(crate) rows: usize,
}

// The codes of a row of cells, each in its column, and how many there are.
#[derive(Clone, Copy)]
struct CodeRow {
    codes: [i32; 8],
    used: usize,
}

// Puts the first codes into the columns of row `b` of a region that have coded cells, column by column.
fn part_row(values: &[i32], region: Region, b: usize, width: usize) -> CodeRow
    requires placed { IsPlaced region }
    requires width { width ≤ 8 }
    requires row { b ≤ 8 }

    // There is a value for each coded cell of the row.
    requires enough { length (coded_columns region b width) ≤ length values.now }
    requires in_range { All IsResidual values.now }

    // The first values stand in their columns, and 0 in the others.
    ensures used { result.used ≡ length (coded_columns region b width) }
    ensures codes { row_values region b width result.codes ≡ take result.used values.now }
    ensures even { IsCodeRow region b result.codes }
    ensures in_range { HasCodes result.codes }
{
    let mut codes = [0; 8];
    let mut used = 0;
    for a in 0..width {
        if is_coded_in(region, a, b) {
            codes[a] = values[used];
            used += 1;
        }
    }
    CodeRow { codes, used }
}

// The first eight codes, a column each.
#[inline]
fn full_row(values: &[i32]) -> CodeRow
    requires enough { 8 ≤ length values.now }
    ensures used { result.used ≡ 8 }
    ensures codes { result.codes ≡ take 8 values.now }
{
    let mut codes = [0; 8];
    codes.copy_from_slice(&values[..8]);
    CodeRow { codes, used: 8 }
}

// The first four codes in every other column, from the second on, and 0 between them.
#[inline]
fn half_row(values: &[i32]) -> CodeRow
    requires enough { 4 ≤ length values.now }
    requires in_range { All IsResidual values.now }
    ensures used { result.used ≡ 4 }
    ensures codes { result.codes ≡ spread_out values.now }
{
    CodeRow {
        codes: [0, values[0], 0, values[1], 0, values[2], 0, values[3]],
        used: 4,
    }
}

// Puts the first codes into the columns of row `b` of a region of eight columns, the second of which is coded.
#[inline]
fn whole_row(values: &[i32], region: Region, b: usize) -> CodeRow
    requires second { is_coded (region.x0 +ℤ pos 1) (region.y0 +ℤ pos b) ≡ true }
    requires placed { IsPlaced region }
    requires row { b ≤ 8 }

    // There is a value for each coded cell of the row.
    requires enough { length (coded_columns region b 8) ≤ length values.now }
    requires in_range { All IsResidual values.now }

    // The first values stand in their columns, and 0 in the others.
    ensures used { result.used ≡ length (coded_columns region b 8) }
    ensures codes { row_values region b 8 result.codes ≡ take result.used values.now }
    ensures even { IsCodeRow region b result.codes }
    ensures in_range { HasCodes result.codes }
{
    if is_coded_in(region, 0, b) {
        return full_row(values);
    }
    half_row(values)
}

// Puts the first codes into the columns of row `b` of a region that have coded cells.
#[inline]
fn code_row(values: &[i32], region: Region, b: usize, width: usize) -> CodeRow
    requires placed { IsPlaced region }
    requires width { width ≤ 8 }
    requires row { b ≤ 8 }

    // There is a value for each coded cell of the row.
    requires enough { length (coded_columns region b width) ≤ length values.now }
    requires in_range { All IsResidual values.now }

    // The first values stand in their columns, and 0 in the others.
    ensures used { result.used ≡ length (coded_columns region b width) }
    ensures codes { row_values region b width result.codes ≡ take result.used values.now }
    ensures even { IsCodeRow region b result.codes }
    ensures in_range { HasCodes result.codes }
{
    if width == 8 && is_coded_in(region, 1, b) {
        return whole_row(values, region, b);
    }
    part_row(values, region, b, width)
}

// Puts the codes of a region's cells into a table, whose first column and row are those of the region.
pub(crate) fn code_table(values: &[i32], region: Region, sides: Sides) -> [[i32; 8]; 8]
    requires placed { IsPlaced region }
    requires width { sides.columns ≤ 8 }
    requires height { sides.rows ≤ 8 }

    // There is one value for each coded cell.
    requires count { length values.now ≡ coded_before region sides.columns sides.rows }
    requires few { length values.now ≤ 64 }
    requires in_range { All IsResidual values.now }

    // Row by row the table has these values, and 0 in the other cells.
    ensures codes { table_values region sides.columns sides.rows result ≡ values.now }
    ensures even { (b : ℕ) → IsCodeRow region b (slice_index_or result b []) }
    ensures in_range { (b : ℕ) → HasCodes (slice_index_or result b []) }
{
    let mut table = [[0; 8]; 8];
    let mut at = 0;
    for b in 0..sides.rows {
        let row = code_row(&values[at..], region, b, sides.columns);
        let codes = row.codes;
        table[b] = codes;
        at += row.used;
    }
    table
}

// So many cells, or none where they have no codes.
#[inline]
fn counted(coded: bool, cells: usize) -> usize
    ensures value { result ≡ (if coded then cells else 0) }
    ensures few { result ≤ cells }
{
    if coded { cells } else { 0 }
}

// How many codes a row of a region has: of its cells every other one is like the first, and every other one like the
// second.
#[inline]
fn row_count(region: Region, b: usize, width: usize) -> u8
    requires placed { IsPlaced region }
    requires width { width ≤ 8 }
    requires row { b ≤ 8 }
    ensures count { result ≡ length (coded_columns region b width) }
    ensures few { result ≤ 8 }
{
    let firsts = counted(is_coded_in(region, 0, b), (width + 1) / 2);
    let seconds = counted(is_coded_in(region, 1, b), width / 2);
    (firsts + seconds) as u8
}

// How many codes the word of a region's cells has.
pub(crate) fn count_of(region: Region, sides: Sides) -> u8
    requires placed { IsPlaced region }
    requires width { sides.columns ≤ 8 }
    requires height { sides.rows ≤ 8 }
    ensures count { result ≡ coded_before region sides.columns sides.rows }
    ensures few { result ≤ 64 }
{
    let mut count = 0;
    for b in 0..sides.rows {
        count += row_count(region, b, sides.columns);
    }
    count
}
