//! Which cells a block of a level has in the terrain.

ghost use Rattle.std.specs.Prelude.{◌≡◌, ◌+◌, ◌*◌, ◌<◌, ◌≤◌, ◌^◌};
ghost use Rattle.store_model.specs.Sizes.{cells_on, blocks_on, block_count, block_column, block_row, block_region};
ghost use Rattle.store_writer.specs.Cells.{region_of, AreCells};

use height_pyramid::Grid;

// The cells of a block in the terrain: so many columns and rows, from column `x0` and row `y0` of the level on.
#[derive(Clone, Copy)]
pub(crate) struct Cells {
    pub(crate) x0: u32,
    pub(crate) y0: u32,
    pub(crate) columns: u32,
    pub(crate) rows: u32,
}

// How many blocks of eight cells a side of so many cells meets.
#[tactic(auto, unfolding(store_model::specs::Sizes::blocks_on))]
#[inline]
fn blocks_on(cells: u32) -> u32
    requires { 1 ≤ cells }
    ensures value { result ≡ blocks_on cells }
    ensures some { 1 ≤ result }
    ensures few { result ≤ cells }
{
    (cells - 1) / 8 + 1
}

// How many blocks of a level have cells in the terrain.
pub(crate) fn block_count(grid: &Grid, level: u8) -> u32
    requires { level ≤ 11 }
    ensures value { result ≡ block_count grid.now.width grid.now.height level }
    ensures few { result ≤ 2 ^ 26 }
{
    let _width = grid.width();
    let (columns, rows) = grid.level_size(level);
    blocks_on(columns) * blocks_on(rows)
}

// How many blocks of a level a row of blocks has.
#[tactic(auto, unfolding(store_model::specs::Sizes::cells_on, terrain_model::specs::Terrain::level_columns))]
pub(crate) fn blocks_across(grid: &Grid, level: u8) -> u32
    requires { level ≤ 11 }
    ensures value { result ≡ blocks_on (cells_on grid.now.width level) }
    ensures some { 1 ≤ result }
    ensures few { result ≤ 2 ^ 26 }
{
    let _width = grid.width();
    blocks_on(grid.level_size(level).0)
}

// The cells of block `k` of a level, where the blocks are counted row by row.
pub(crate) fn cells_of_block(grid: &Grid, level: u8, k: u32) -> Cells
    requires level { level ≤ 11 }
    requires block { k < block_count grid.now.width grid.now.height level }
    ensures region { region_of result ≡ block_region grid.now.width grid.now.height level k }
    ensures first_column { result.x0 ≡ 8 * block_column grid.now.width level k }
    ensures first_row { result.y0 ≡ 8 * block_row grid.now.width level k }
    ensures cells { AreCells result }
{
    let _width = grid.width();
    let (columns, rows) = grid.level_size(level);
    let across = blocks_on(columns);
    let x0 = 8 * (k % across);
    let y0 = 8 * (k / across);
    Cells {
        x0,
        y0,
        columns: (columns - x0).min(8),
        rows: (rows - y0).min(8),
    }
}
