//! The heights of a level of a grid, at any cell.

ghost use Rattle.std.specs.Prelude.{◌≡◌, ◌≤◌};
ghost use Rattle.terrain_model.specs.Terrain.{level_height, level_columns, level_rows};

use four_point::Heights;
use height_pyramid::Grid;

// A level of a grid, 0 to 11.
#[derive(Clone, Copy)]
pub(crate) struct LevelOf<'a> {
    pub(crate) grid: &'a Grid,
    pub(crate) level: u8,
    columns: u32,
    rows: u32,
    ghost low: { level ≤ 11 },
    ghost columns_are: { columns ≡ level_columns grid.now level },
    ghost rows_are: { rows ≡ level_rows grid.now level },
}

impl<'a> LevelOf<'a> {
    // A level, 0 to 11.
    pub(crate) fn new(grid: &'a Grid, level: u8) -> LevelOf<'a>
        requires { level ≤ 11 }
        ensures grid { result.grid.now ≡ grid.now }
        ensures level { result.level ≡ level }
    {
        let (columns, rows) = grid.level_size(level);
        LevelOf {
            grid,
            level,
            columns,
            rows,
        }
    }
}

impl<'a> Heights for LevelOf<'a> {
    ghost heights = { λ l. level_height l.grid.now l.level };

    #[inline]
    fn height(&self, a: i32, b: i32) -> i16 {
        store_model::laws::level_outside();
        let _width = self.grid.width();
        if a < 0 || b < 0 || a as u32 >= self.columns || b as u32 >= self.rows {
            return 0;
        }
        self.grid.level_height(self.level, a, b)
    }
}
