//! How many blocks a store has, and which of them stands where.

ghost use Rattle.std.specs.Prelude.{◌≡◌, ◌⊎◌, ◌+◌, ◌-◌, ◌*◌, ◌/◌, ◌^◌, ◌<◌, ◌≤◌, min, pos, ◌<ℤ◌, ◌≤ℤ◌, IfSome, IfNone};
ghost use Rattle.store_model.specs.Sizes.{cells_on, blocks_on, block_count};
ghost use Rattle.store_reader.specs.Headers.{head_of, IsReadable};
ghost use Rattle.store_index.specs.Places.{blocks_before, block_total, IsPlaceOf, HasNoBlock};

use clip_regions::Region;
use store_reader::Header;

// How many cells of a level, 0 to 11, lie in a side of so many samples.
#[tactic(auto, unfolding(store_model::specs::Sizes::cells_on))]
fn cells_on(side: u32, level: u8) -> u32
    requires side { 1 ≤ side }
    requires level { level ≤ 11 }
    ensures value { result ≡ cells_on side level }
    ensures some { 1 ≤ result }
    ensures few { result ≤ side }
{
    ((side - 1) >> level) + 1
}

// How many blocks of eight cells a side of so many cells meets.
#[tactic(auto, unfolding(store_model::specs::Sizes::blocks_on))]
fn blocks_on(cells: u32) -> u32
    requires { 1 ≤ cells }
    ensures value { result ≡ blocks_on cells }
    ensures some { 1 ≤ result }
    ensures few { result ≤ cells }
    ensures whole { 8 * result ≤ cells + 7 }
{
    (cells - 1) / 8 + 1
}

// How many blocks a level has.
fn level_blocks(header: Header, level: u8) -> u32
    requires header { IsReadable header }
    requires level { level < header.levels }
    ensures value { result ≡ block_count header.width header.height level }
    ensures few { result ≤ 2 ^ 26 }
{
    let across = blocks_on(cells_on(header.width, level));
    let down = blocks_on(cells_on(header.height, level));
    across * down
}

// How many blocks the `n` coarsest levels have.
fn blocks_before(header: Header, n: u8) -> u32
    requires header { IsReadable header }
    requires few { n ≤ header.levels }
    ensures value { result ≡ blocks_before (head_of header) n }
    ensures few { result ≤ n * 2 ^ 26 }
{
    let mut count = 0;
    for m in 0..n {
        count += level_blocks(header, header.levels - 1 - m);
    }
    count
}

/// How many blocks a store has, those with cells in the terrain.
pub fn block_total(header: Header) -> u32
    requires { IsReadable header }
    ensures value { result ≡ block_total (head_of header) }
    ensures few { result ≤ 2 ^ 30 }
{
    blocks_before(header, header.levels)
}

/// Where a block stands, and its cells in the terrain.
#[derive(Clone, Copy)]
pub struct Place {
    /// The block's number among all blocks of the store, from the coarsest level.
    pub number: u32,
    /// The block's cells in the terrain.
    pub cells: Region,
}

// The lesser of two numbers.
fn lesser(a: u32, b: u32) -> u32
    ensures { result ≡ min a b }
{
    if a < b { a } else { b }
}

// The cells in the terrain of the block in column `bx` and row `by` of a level with so many columns and rows.
fn cells_of(bx: u32, by: u32, columns: u32, rows: u32) -> Region
    requires column { 8 * bx < columns }
    requires row { 8 * by < rows }
    requires wide { columns ≤ 2 ^ 26 }
    requires high { rows ≤ 2 ^ 26 }

    // It has the block's eight columns and rows, as far as the terrain goes.
    ensures west { result.x0 ≡ pos (8 * bx) }
    ensures north { result.y0 ≡ pos (8 * by) }
    ensures east { result.x1 ≡ pos (min (8 * bx + 7) (columns - 1)) }
    ensures south { result.y1 ≡ pos (min (8 * by + 7) (rows - 1)) }
{
    Region {
        x0: (8 * bx) as i32,
        y0: (8 * by) as i32,
        x1: lesser(8 * bx + 7, columns - 1) as i32,
        y1: lesser(8 * by + 7, rows - 1) as i32,
    }
}

// The number of the block in column `bx` and row `by` of a table with so many columns and rows of blocks.
fn number_in(bx: u32, by: u32, across: u32, down: u32) -> u32
    requires column { bx < across }
    requires row { by < down }
    requires few { across * down ≤ 2 ^ 26 }
    ensures value { result ≡ by * across + bx }
    ensures below { result < across * down }
{
    by * across + bx
}

// The number as an index of so many blocks, if it is one.
fn index_in(b: i32, blocks: u32) -> Option<u32>
    requires { blocks ≤ 2 ^ 26 }
    ensures value { IfSome result (λ n. b ≡ pos n) }
    ensures below { IfSome result (λ n. n < blocks) }
    ensures none { IfNone result ((b <ℤ pos 0) ⊎ (pos blocks ≤ℤ b)) }
{
    if b < 0 || b >= blocks as i32 {
        return None;
    }
    Some(b as u32)
}

/// The block in column `bx` and row `by` of a level, if the store has it: if it has the level, and a cell of the block
/// lies in the terrain.
pub fn find_block(header: Header, level: u8, bx: i32, by: i32) -> Option<Place>
    requires { IsReadable header }
    ensures found { IfSome result (λ place. IsPlaceOf (head_of header) level bx by place) }
    ensures none { IfNone result (HasNoBlock (head_of header) level bx by) }
{
    if level >= header.levels {
        return None;
    }
    let columns = cells_on(header.width, level);
    let rows = cells_on(header.height, level);
    let across = blocks_on(columns);
    let down = blocks_on(rows);
    let Some(x) = index_in(bx, across) else {
        return None;
    };
    let Some(y) = index_in(by, down) else {
        return None;
    };
    let k = number_in(x, y, across, down);
    Some(Place {
        number: blocks_before(header, header.levels - 1 - level) + k,
        cells: cells_of(x, y, columns, rows),
    })
}
