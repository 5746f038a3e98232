//! A tile of 8 × 8 cells.

ghost use Rattle.std.specs.Prelude.{◌≡◌, ℕ, ◌+◌, ◌-◌, ◌*◌, ◌<◌, ◌≤◌, ◌⊎◌, pos, ◌+ℤ◌, ◌-ℤ◌, ◌≤ℤ◌, length, map, replicate, slice_index_or};
ghost use Rattle.std.specs.List.{range_with_len};
ghost use Rattle.std.specs.Int.{int_gap};
ghost use Rattle.clip_regions.specs.FloorDivision.{floor_rem};
ghost use Rattle.clip_regions.specs.Regions.{area};
ghost use Rattle.torus_grid.specs.Places.{tile_height, IsInOneBlock, IsWritten};
ghost use Rattle.torus_grid.specs.Patches.{beside, among_four};

use clip_regions::Region;
use plan_laws::inside_is_held;
use std::marker::Model;

/// The heights of the 8 × 8 cells of a torus tile, in metres, row by row. A contract sees the list of them.
#[derive(Drop)]
pub struct Tile {
    heights: [i16; 64],
}

impl Model for Tile {
    ghost use Rattle.std.specs.Prelude.{ℤ, List};

    ghost Value = { List ℤ };

    ghost view = { λ t. t.heights };
}

// The place of a cell's column or row in its tile.
#[tactic(auto, unfolding(clip_regions::specs::FloorDivision::floor_rem))]
pub(crate) fn place_of(cell: i32) -> usize
    ensures value { result ≡ floor_rem cell 8 }
    ensures inside { result < 8 }
{
    cell.rem_euclid(8) as usize
}

// The index of a cell's height among those of its tile.
fn index_of(i: i32, j: i32) -> usize
    ensures value { result ≡ 8 * floor_rem j 8 + floor_rem i 8 }
    ensures inside { result < 64 }
{
    8 * place_of(j) + place_of(i)
}

// Writes `width` of some heights, from `from` on, over those of a tile from `to` on.
fn write_row(tile: &mut [i16], to: usize, heights: &[i16], from: usize, width: usize)
    requires inside { to + width ≤ length tile.old }
    requires there { from + width ≤ length heights.now }
    ensures many { length tile.new ≡ length tile.old }
    ensures written { (n : ℕ) → n < width →
        slice_index_or tile.new (to + n) (pos 0) ≡ slice_index_or heights.now (from + n) (pos 0) }
    ensures others { (n : ℕ) → (n < to) ⊎ (to + width ≤ n) →
        slice_index_or tile.new n (pos 0) ≡ slice_index_or tile.old n (pos 0) }
{
    for n in 0..width {
        tile[to + n] = heights[from + n];
    }
}

// How many cells lie from the first to the last of at most eight on an axis.
fn span(first: i32, last: i32) -> usize
    requires order { first ≤ℤ last }
    requires short { (last -ℤ first) ≤ℤ pos 7 }
    ensures { result ≡ int_gap first (last +ℤ pos 1) }
{
    (last - first + 1) as usize
}

// Writes heights over the cells of a region, row by row.
fn write_cells(tile: &mut [i16], cells: Region, heights: &[i16])
    requires tile { length tile.old ≡ 64 }
    requires block { IsInOneBlock cells }
    requires many { length heights.now ≡ area cells }
    ensures { IsWritten tile.old cells heights.now tile.new }
{
    if cells.is_empty() {
        return;
    }
    inside_is_held();
    let width = span(cells.x0, cells.x1);
    let height = span(cells.y0, cells.y1);
    let first = index_of(cells.x0, cells.y0);
    for row in 0..height {
        write_row(tile, first + 8 * row, heights, width * row, width);
    }
}

// The height in column x and row y of a tile and the next tile to the east.
#[inline(always)]
#[tactic(auto, unfolding(crate::specs::Patches::beside))]
fn height_of_two(west: &[i16], east: &[i16], x: usize, y: usize) -> i16
    requires west { length west.now ≡ 64 }
    requires east { length east.now ≡ 64 }
    requires column { x < 16 }
    requires row { y < 8 }
    ensures { result ≡ beside west.now east.now x y }
{
    if x < 8 {
        west[8 * y + x]
    } else {
        east[8 * y + (x - 8)]
    }
}

// Seven heights of a row of a tile and the next tile to the east, from column x of the first on.
#[inline(always)]
fn seven_of_two(west: &[i16], east: &[i16], x: usize, y: usize) -> [i16; 7]
    requires west { length west.now ≡ 64 }
    requires east { length east.now ≡ 64 }
    requires column { x < 8 }
    requires row { y < 8 }
    ensures { (a : ℕ) → a < 7 → slice_index_or result a (pos 0) ≡ beside west.now east.now (x + a) y }
{
    [
        height_of_two(west, east, x, y),
        height_of_two(west, east, x + 1, y),
        height_of_two(west, east, x + 2, y),
        height_of_two(west, east, x + 3, y),
        height_of_two(west, east, x + 4, y),
        height_of_two(west, east, x + 5, y),
        height_of_two(west, east, x + 6, y),
    ]
}

// Seven heights of a row of two pairs of tiles, the second to the south of the first, from column x and row y of
// the first tile on.
#[inline(always)]
pub(crate) fn seven_of_four(
    nw: &Tile,
    ne: &Tile,
    sw: &Tile,
    se: &Tile,
    x: usize,
    y: usize,
) -> [i16; 7]
    requires column { x < 8 }
    requires row { y < 16 }
    ensures { (a : ℕ) → a < 7 →
        slice_index_or result a (pos 0) ≡ among_four nw.now ne.now sw.now se.now (x + a) y }
{
    if y < 8 {
        seven_of_two(&nw.heights, &ne.heights, x, y)
    } else {
        seven_of_two(&sw.heights, &se.heights, x, y - 8)
    }
}

impl Tile {
    // A tile of heights 0.
    pub(crate) fn flat() -> Self
        ensures { result ≡ replicate 64 (pos 0) }
    {
        Tile { heights: [0; 64] }
    }

    /// The height of the cell in column `i` and row `j`, by its place modulo 8, in metres.
    pub fn cell(&self, i: i32, j: i32) -> i16
        ensures { result ≡ tile_height self.now i j }
    {
        self.heights[index_of(i, j)]
    }

    /// The heights of the cells from column `i` to the end of the tile, in row `j`, in metres: 8 less i
    /// modulo 8 of them.
    pub fn row(&self, i: i32, j: i32) -> &[i16]
        ensures { result.now ≡ map (λ n. tile_height self.now (i +ℤ pos n) j) (range_with_len 0 (8 - floor_rem i 8)) }
    {
        let first = index_of(i, j);
        &self.heights[first..first + 8 - place_of(i)]
    }

    /// Writes heights, in metres and row by row, over cells of one world block, and as many of them. All
    /// other cells stay.
    pub fn write(&mut self, cells: Region, heights: &[i16])
        requires block { IsInOneBlock cells }
        requires many { length heights.now ≡ area cells }
        ensures { IsWritten self.old cells heights.now self.new }
    {
        write_cells(&mut self.heights, cells, heights);
    }
}
