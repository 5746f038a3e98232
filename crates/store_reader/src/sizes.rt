//! How many cells and blocks the levels of a store have.

ghost use Rattle.std.specs.Prelude.{◌≡◌, ◌+◌, ◌-◌, ◌*◌, ◌/◌, ◌^◌, ◌<◌, ◌≤◌, min, pos, ◌<ℤ◌};
ghost use Rattle.store_model.specs.Sizes.{cells_on, blocks_on, block_count};
ghost use Rattle.store_reader.specs.Headers.{head_of, IsReadable};
ghost use Rattle.store_reader.specs.Places.{IsPlaceOf, IsSoundPlace};

use crate::header::Header;
use clip_regions::Region;

// How many cells of a level, 0 to 11, lie in a side of so many samples.
#[tactic(auto, unfolding(store_model::specs::Sizes::cells_on))]
pub(crate) fn cells_on(side: u32, level: u8) -> u32
    requires side { 1 ≤ side }
    requires level { level ≤ 11 }
    ensures value { result ≡ cells_on side level }
    ensures some { 1 ≤ result }
    ensures few { result ≤ side }
{
    ((side - 1) >> level) + 1
}

// How many blocks of eight cells a side of so many cells meets.
#[tactic(auto, unfolding(store_model::specs::Sizes::blocks_on))]
pub(crate) fn blocks_on(cells: u32) -> u32
    requires { 1 ≤ cells }
    ensures value { result ≡ blocks_on cells }
    ensures some { 1 ≤ result }
    ensures few { 8 * result ≤ cells + 7 }
{
    (cells - 1) / 8 + 1
}

// Where a block stands in its level.
#[derive(Clone, Copy)]
pub(crate) struct Place {
    pub(crate) level: u8,
    pub(crate) bx: u32,
    pub(crate) by: u32,
    // The block's cells in the terrain.
    pub(crate) cells: Region,
}

// The lesser of two numbers.
fn lesser(a: u32, b: u32) -> u32
    ensures { result ≡ min a b }
{
    if a < b { a } else { b }
}

// The cells in the terrain of the block in column `bx` and row `by` of a level with so many columns and rows.
fn cells_of(bx: u32, by: u32, columns: u32, rows: u32) -> Region
    requires column { 8 * bx < columns }
    requires row { 8 * by < rows }
    requires wide { columns ≤ 2 ^ 26 }
    requires high { rows ≤ 2 ^ 26 }

    // It has the block's eight columns and rows, as far as the terrain goes.
    ensures west { result.x0 ≡ pos (8 * bx) }
    ensures north { result.y0 ≡ pos (8 * by) }
    ensures east { result.x1 ≡ pos (min (8 * bx + 7) (columns - 1)) }
    ensures south { result.y1 ≡ pos (min (8 * by + 7) (rows - 1)) }
{
    Region {
        x0: (8 * bx) as i32,
        y0: (8 * by) as i32,
        x1: lesser(8 * bx + 7, columns - 1) as i32,
        y1: lesser(8 * by + 7, rows - 1) as i32,
    }
}

// The quotient of a number that is below a product.
fn row_in(k: u32, across: u32, down: u32) -> u32
    requires some { 1 ≤ across }
    requires inside { k < across * down }
    ensures value { result ≡ k / across }
    ensures below { result < down }
{
    k / across
}

// Block `k` of a level, counted row by row from the north and each row from the west.
pub(crate) fn place_of(header: Header, level: u8, k: u32) -> Place
    requires header { IsReadable header }
    requires level { level < header.levels }
    requires block { k < block_count header.width header.height level }

    // It is the place of that block, and its cells lie in the level.
    ensures place { IsPlaceOf (head_of header) level k result }
    ensures sound { IsSoundPlace result }
    ensures east { result.cells.x1 <ℤ pos (cells_on header.width level) }
    ensures south { result.cells.y1 <ℤ pos (cells_on header.height level) }
{
    let columns = cells_on(header.width, level);
    let rows = cells_on(header.height, level);
    let across = blocks_on(columns);
    let by = row_in(k, across, blocks_on(rows));
    let bx = k % across;
    Place {
        level,
        bx,
        by,
        cells: cells_of(bx, by, columns, rows),
    }
}

// How many blocks of a level stand above a row of them.
pub(crate) fn blocks_above(header: Header, level: u8, row: u32) -> u32
    requires header { IsReadable header }
    requires level { level < header.levels }
    requires row { row ≤ blocks_on (cells_on header.height level) }
    ensures { result ≡ blocks_on (cells_on header.width level) * row }
{
    blocks_on(cells_on(header.width, level)) * row
}

// How many cells of a level lie above a row of its blocks.
pub(crate) fn cells_above(header: Header, level: u8, row: u32) -> usize
    requires header { IsReadable header }
    requires level { level < header.levels }
    requires row { row ≤ blocks_on (cells_on header.height level) }
    ensures { result ≡ min (8 * row) (cells_on header.height level) * cells_on header.width level }
{
    let rows = lesser(8 * row, cells_on(header.height, level));
    rows as usize * cells_on(header.width, level) as usize
}

// How many cells a level has.
pub(crate) fn cell_total(header: Header, level: u8) -> usize
    requires header { IsReadable header }
    requires level { level < header.levels }
    ensures value { result ≡ cells_on header.width level * cells_on header.height level }
    ensures few { result ≤ 2 ^ 26 }
{
    cells_on(header.width, level) as usize * cells_on(header.height, level) as usize
}
