//! The heights of a level of a grid, at any cell.

ghost use Rattle.std.specs.Prelude.{◌≡◌, ◌≤◌, true};
ghost use Rattle.terrain_model.specs.Terrain.{level_height};
ghost use Rattle.grid_fills.specs.Filling.{AreZero};

use clip_regions::Region;
use height_pyramid::Grid;

// The height of the cell in column `i` and row `j` of a level, 0 to 11, in metres: 0 outside the grid.
pub(crate) fn height_of(grid: &Grid, level: u8, i: i32, j: i32) -> i16
    requires { level ≤ 11 }
    ensures { result ≡ level_height grid.now level i j }
{
    store_model::laws::level_outside();
    let _width = grid.width();
    let (columns, rows) = grid.level_size(level);
    if i < 0 || j < 0 || i as u32 >= columns || j as u32 >= rows {
        return 0;
    }
    grid.level_height(level, i, j)
}

// Whether no cell of a region lies in the grid on a level, 0 to 11: all of its heights are then 0.
pub(crate) fn lies_outside(grid: &Grid, level: u8, cells: Region) -> bool
    requires { level ≤ 11 }
    ensures { result ≡ true → AreZero (level_height grid.now level) cells }
{
    store_model::laws::level_outside();
    let _width = grid.width();
    let (columns, rows) = grid.level_size(level);
    if cells.x1 < 0
        || cells.y1 < 0
        || i64::from(cells.x0) >= i64::from(columns)
        || i64::from(cells.y0) >= i64::from(rows)
    {
        return true;
    }
    false
}
