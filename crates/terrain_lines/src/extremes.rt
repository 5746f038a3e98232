//! The least and the greatest height of a grid, and how many blocks its store has.

ghost use Rattle.std.specs.Prelude.{◌≡◌, ◌*◌, ◌^◌, ◌≤◌};
ghost use Rattle.store_model.specs.Sizes.{cells_on, blocks_on, block_count};
ghost use Rattle.terrain_lines.specs.Extremes.{all_blocks, least_of, most_of};

use height_pyramid::Grid;

// The least height, in metres.
pub(crate) fn least(grid: &Grid) -> i16
    ensures value { result ≡ least_of grid.now.table }
{
    grid.least()
}

// The greatest height, in metres.
pub(crate) fn most(grid: &Grid) -> i16
    ensures value { result ≡ most_of grid.now.table }
{
    grid.most()
}

// How many cells of a level, 0 to 11, lie in a side of so many samples.
#[tactic(auto, unfolding(store_model::specs::Sizes::cells_on))]
fn cells_on(side: u32, level: u8) -> u32
    requires side { 1 ≤ side }
    requires level { level ≤ 11 }
    ensures value { result ≡ cells_on side level }
    ensures some { 1 ≤ result }
    ensures few { result ≤ side }
{
    ((side - 1) >> level) + 1
}

// How many blocks of eight cells a side of so many cells meets.
#[tactic(auto, unfolding(store_model::specs::Sizes::blocks_on))]
fn blocks_on(cells: u32) -> u32
    requires { 1 ≤ cells }
    ensures value { result ≡ blocks_on cells }
    ensures few { result ≤ cells }
{
    (cells - 1) / 8 + 1
}

// How many blocks a level, 0 to 11, has.
#[tactic(auto, unfolding(store_model::specs::Sizes::block_count))]
fn block_count(width: u32, height: u32, level: u8) -> u64
    requires some_columns { 1 ≤ width }
    requires some_rows { 1 ≤ height }
    requires few { width * height ≤ 2 ^ 26 }
    requires level { level ≤ 11 }
    ensures value { result ≡ block_count width height level }
    ensures small { result ≤ 2 ^ 26 }
{
    u64::from(blocks_on(cells_on(width, level))) * u64::from(blocks_on(cells_on(height, level)))
}

// How many blocks the store of a terrain of this width and height has in so many levels, up to 12.
pub(crate) fn all_blocks(width: u32, height: u32, levels: u8) -> u64
    requires some_columns { 1 ≤ width }
    requires some_rows { 1 ≤ height }
    requires few { width * height ≤ 2 ^ 26 }
    requires levels { levels ≤ 12 }
    ensures value { result ≡ all_blocks width height levels }
{
    let mut blocks = 0u64;
    for level in 0..levels {
        blocks += block_count(width, height, level);
    }
    blocks
}
