//! The predictions of all cells of a block, with each sum made once.

ghost use Rattle.std.specs.Prelude.{◌≡◌, ◌^◌, ◌<◌, ◌*◌, ℕ, pos, neg_ℤ, ◌+ℤ◌, ◌-ℤ◌, ◌*ℤ◌, ◌≤ℤ◌, ◌<ℤ◌, slice_index_or};
ghost use Rattle.four_point.specs.Prediction.{weighted, prediction};
ghost use Rattle.four_point.specs.Patches.{patch_height, IsOfBlock, IsAtMost};
ghost use Rattle.four_point.specs.Steps.{IsStep, code_of, value_of};
ghost use Rattle.four_point.specs.Blocks.{AreAtMost, AreSumsOf, IsLineOf, AreWeighted, IsSmallLine, even_cells, odd_cells, middle_cells, AreSmall, first_cell, ArePredictions, AreSmallRows};

use crate::patch::Patch;
use crate::prediction::{rounded_over_16, rounded_over_256};
use crate::steps::{steps_in, steps_of};
use crate::sums::weighted;

// A number for each of the four coarser columns of a block.
#[derive(Clone, Copy)]
struct Four {
    p: i32,
    q: i32,
    r: i32,
    s: i32,
}

// A row of a patch: its heights in the four columns, and the weighted sum behind each of them.
#[derive(Clone, Copy)]
struct Line {
    heights: Four,
    sums: Four,
}

// The weighted sum of four heights.
#[inline]
fn sum_of(before: i16, near: i16, far: i16, beyond: i16) -> i32
    ensures value { result ≡ weighted before near far beyond }
    ensures size { IsAtMost 655360 result }
{
    weighted(
        i32::from(before),
        i32::from(near),
        i32::from(far),
        i32::from(beyond),
    )
}

// The weighted sums along a row.
#[inline]
fn sums_along(row: [i16; 7]) -> Four
    ensures sums { AreSumsOf row result }
    ensures size { AreAtMost 655360 result }
{
    Four {
        p: sum_of(row[0], row[1], row[2], row[3]),
        q: sum_of(row[1], row[2], row[3], row[4]),
        r: sum_of(row[2], row[3], row[4], row[5]),
        s: sum_of(row[3], row[4], row[5], row[6]),
    }
}

// What a row of a patch gives.
#[inline]
fn line_of(row: [i16; 7]) -> Line
    ensures line { IsLineOf row result }
    ensures size { IsSmallLine result }
{
    let heights = Four {
        p: i32::from(row[1]),
        q: i32::from(row[2]),
        r: i32::from(row[3]),
        s: i32::from(row[4]),
    };
    Line {
        heights,
        sums: sums_along(row),
    }
}

// The weighted sums down four rows of numbers.
#[inline]
fn sums_down(before: Four, near: Four, far: Four, beyond: Four) -> Four
    requires before { AreAtMost 655360 before }
    requires near { AreAtMost 655360 near }
    requires far { AreAtMost 655360 far }
    requires beyond { AreAtMost 655360 beyond }
    ensures sums { AreWeighted before near far beyond result }
    ensures size { (n : ℕ) → AreAtMost n before → AreAtMost n near → AreAtMost n far → AreAtMost n beyond →
        AreAtMost (20 * n) result }
{
    Four {
        p: weighted(before.p, near.p, far.p, beyond.p),
        q: weighted(before.q, near.q, far.q, beyond.q),
        r: weighted(before.r, near.r, far.r, beyond.r),
        s: weighted(before.s, near.s, far.s, beyond.s),
    }
}

// The predictions of a row of cells that has the coarser row of a line.
#[inline]
fn even_row(line: Line) -> [i32; 8]
    requires { IsSmallLine line }
    ensures value { result ≡ even_cells line }
    ensures size { AreSmall result }
{
    let Four { p, q, r, s } = line.heights;
    [
        p,
        rounded_over_16(line.sums.p),
        q,
        rounded_over_16(line.sums.q),
        r,
        rounded_over_16(line.sums.r),
        s,
        rounded_over_16(line.sums.s),
    ]
}

// The predictions of a row of cells, by the sums down its columns and those round the middles of four.
#[inline]
fn odd_row(columns: Four, squares: Four) -> [i32; 8]
    requires columns { AreAtMost 655360 columns }
    requires squares { AreAtMost 13107200 squares }
    ensures value { result ≡ odd_cells columns squares }
    ensures size { AreSmall result }
{
    [
        rounded_over_16(columns.p),
        rounded_over_256(squares.p),
        rounded_over_16(columns.q),
        rounded_over_256(squares.q),
        rounded_over_16(columns.r),
        rounded_over_256(squares.r),
        rounded_over_16(columns.s),
        rounded_over_256(squares.s),
    ]
}

// The predictions of a row of cells between the middle two of four coarser rows.
#[inline]
#[tactic(auto, using(crate::proofs::BlockLemmas::heights_at_most))]
fn middle_row(before: Line, near: Line, far: Line, beyond: Line) -> [i32; 8]
    requires before { IsSmallLine before }
    requires near { IsSmallLine near }
    requires far { IsSmallLine far }
    requires beyond { IsSmallLine beyond }
    ensures value { result ≡ middle_cells before near far beyond }
    ensures size { AreSmall result }
{
    let columns = sums_down(before.heights, near.heights, far.heights, beyond.heights);
    let squares = sums_down(before.sums, near.sums, far.sums, beyond.sums);
    odd_row(columns, squares)
}

// How many columns or rows a cell of the block whose patch begins at `first` lies after the first one.
#[inline]
fn place_in(first: i32, cell: i32) -> usize
    requires { IsOfBlock first cell }
    ensures place { cell ≡ first_cell first +ℤ pos result }
    ensures few { result < 8 }
{
    (cell - first - first - 2) as usize
}

/// The predictions of the 64 cells of a patch's block.
#[derive(Clone, Copy)]
pub struct BlockPredictions<'a> {
    /// The patch whose heights predict them.
    pub patch: &'a Patch,
    cells: [[i32; 8]; 8],
    ghost values: { ArePredictions patch.now cells },
    ghost sizes: { AreSmallRows cells },
}

/// The predictions of all cells of a patch's block. Each sum along a row is made once.
pub fn predict_block(patch: &Patch) -> BlockPredictions<'_>
    ensures { result.patch.now ≡ patch.now }
{
    let a = line_of(patch.h[0]);
    let b = line_of(patch.h[1]);
    let c = line_of(patch.h[2]);
    let d = line_of(patch.h[3]);
    let e = line_of(patch.h[4]);
    let f = line_of(patch.h[5]);
    let g = line_of(patch.h[6]);
    BlockPredictions {
        patch,
        cells: [
            even_row(b),
            middle_row(a, b, c, d),
            even_row(c),
            middle_row(b, c, d, e),
            even_row(d),
            middle_row(c, d, e, f),
            even_row(e),
            middle_row(d, e, f, g),
        ],
    }
}

impl BlockPredictions<'_> {
    /// The prediction at cell (`i`, `j`) of the block, in metres.
    #[inline]
    pub fn predict(&self, i: i32, j: i32) -> i32
        requires column { IsOfBlock self.now.patch.now.i0 i }
        requires row { IsOfBlock self.now.patch.now.j0 j }
        ensures value { result ≡ prediction (patch_height self.now.patch.now) i j }
        ensures size { IsAtMost 51200 result }
    {
        let a = place_in(self.patch.i0, i);
        let b = place_in(self.patch.j0, j);
        self.cells[b][a]
    }

    /// The predictions of the eight cells of row `j` of the block, from its first column on, in metres.
    #[inline]
    pub fn row(&self, j: i32) -> [i32; 8]
        requires row { IsOfBlock self.now.patch.now.j0 j }
        ensures values { (a : ℕ) → a < 8 → slice_index_or result a (pos 0) ≡
            prediction (patch_height self.now.patch.now) (first_cell self.now.patch.now.i0 +ℤ pos a) j }
        ensures sizes { AreSmall result }
    {
        let down = place_in(self.patch.j0, j);
        self.cells[down]
    }

    // How far the height at cell (`i`, `j`) of the block lies above its prediction, in metres.
    #[inline]
    fn residual(&self, i: i32, j: i32, height: i16) -> i32
        requires column { IsOfBlock self.now.patch.now.i0 i }
        requires row { IsOfBlock self.now.patch.now.j0 j }
        ensures value { result ≡ height -ℤ prediction (patch_height self.now.patch.now) i j }
        ensures size { IsAtMost 83968 result }
    {
        i32::from(height) - self.predict(i, j)
    }

    /// How many steps the height at cell (`i`, `j`) of the block lies above its prediction, as by `code_by`.
    #[inline]
    #[tactic(auto, unfolding(crate::specs::Steps::code_of))]
    pub fn code_by(&self, i: i32, j: i32, height: i16, step: u8) -> i32
        requires column { IsOfBlock self.now.patch.now.i0 i }
        requires row { IsOfBlock self.now.patch.now.j0 j }
        requires step { IsStep step }
        ensures value { result ≡ code_of (patch_height self.now.patch.now) step i j height }
        ensures size { IsAtMost 131071 result }
    {
        steps_in(self.residual(i, j, height), step)
    }

    /// The prediction at cell (`i`, `j`) of the block and `code` steps, in metres, as by `value_by`.
    #[inline]
    #[tactic(auto, unfolding(crate::specs::Steps::value_of))]
    pub fn value_by(&self, i: i32, j: i32, code: i32, step: u8) -> i32
        requires column { IsOfBlock self.now.patch.now.i0 i }
        requires row { IsOfBlock self.now.patch.now.j0 j }
        requires low { neg_ℤ (pos (2 ^ 17)) ≤ℤ code }
        requires high { code <ℤ pos (2 ^ 17) }
        requires step { IsStep step }
        ensures { result ≡ value_of (patch_height self.now.patch.now) step i j code }
    {
        self.predict(i, j) + steps_of(code, step)
    }
}
