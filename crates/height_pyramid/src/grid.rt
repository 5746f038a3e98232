//! A table of heights, seen at any level.

ghost use Rattle.std.specs.Prelude.{◌≡◌, ◌+◌, ◌*◌, ◌^◌, ◌<◌, ◌≤◌, ℕ, length, vec_len, pos, ◌≤ℤ◌, slice_index_or};

use crate::extremes::{Extremes, extremes_of};
use std::marker::Model;

/// A terrain of heights in metres, row by row from the north and each row from the west.
#[derive(Drop)]
pub struct Grid {
    width: u32,
    height: u32,
    least: i16,
    most: i16,
    heights: Vec<i16>,
}

impl Model for Grid {
    ghost use Rattle.terrain_model.specs.Terrain.{Terrain};
    ghost use Rattle.height_pyramid.specs.Extremes.{IsGrid};

    ghost Value = { Terrain };

    ghost view = { λ g. record { width = g.width; height = g.height; table = g.heights.items } };

    ghost invariant = { λ g. IsGrid
        (record { width = g.width; height = g.height; table = g.heights.items }) g.least g.most };
}

impl Grid {
    ghost use Rattle.terrain_model.specs.Terrain.{IsTerrain, height_at, level_height, level_columns, level_rows};
    ghost use Rattle.height_pyramid.specs.Extremes.{IsLeast, IsGreatest};
    ghost use Rattle.height_pyramid.specs.Reach.{IsInReach};

    /// A grid of `width` columns and `height` rows, whose heights are given row by row.
    pub fn new(width: u32, height: u32, heights: Vec<i16>) -> Grid
        requires columns { 1 ≤ width }
        requires rows { 1 ≤ height }
        requires samples { width * height ≤ 2 ^ 26 }
        requires whole { vec_len heights ≡ width * height }

        // The grid is the terrain of these numbers.
        ensures width { result.width ≡ width }
        ensures height { result.height ≡ height }
        ensures table { result.table ≡ heights.items }
        ensures terrain { IsTerrain result }
    {
        let Extremes { least, most } = extremes_of(heights.as_slice());
        Grid {
            width,
            height,
            least,
            most,
            heights,
        }
    }

    /// How many columns there are.
    pub fn width(&self) -> u32
        ensures value { result ≡ self.now.width }
        ensures terrain { IsTerrain self.now }
    {
        self.width
    }

    /// How many rows there are.
    pub fn height(&self) -> u32
        ensures value { result ≡ self.now.height }
        ensures terrain { IsTerrain self.now }
    {
        self.height
    }

    /// The least height, in metres.
    pub fn least(&self) -> i16
        ensures { IsLeast result self.now.table }
    {
        self.least
    }

    /// The greatest height, in metres.
    pub fn most(&self) -> i16
        ensures { IsGreatest result self.now.table }
    {
        self.most
    }

    /// How many columns and rows of a level, 0 to 11, lie in the grid.
    #[tactic(auto, unfolding(terrain_model::specs::Terrain::level_columns, terrain_model::specs::Terrain::level_rows))]
    pub fn level_size(&self, level: u8) -> (u32, u32)
        requires { level ≤ 11 }
        ensures columns { result.0 ≡ level_columns self.now level }
        ensures rows { result.1 ≡ level_rows self.now level }
        ensures some_columns { (1 ≤ result.0) × (result.0 ≤ self.now.width) }
        ensures some_rows { (1 ≤ result.1) × (result.1 ≤ self.now.height) }
    {
        (
            ((self.width - 1) >> level) + 1,
            ((self.height - 1) >> level) + 1,
        )
    }

    /// The height at cell (`i`, `j`) of a level, 0 to 11, in metres: that of the sample at column
    /// `i` * 2^`level` and row `j` * 2^`level`, and 0 outside the grid. Both lie between -2^30 and 2^30.
    #[tactic(auto, unfolding(terrain_model::specs::Terrain::level_height))]
    pub fn level_height(&self, level: u8, i: i32, j: i32) -> i16
        requires level { level ≤ 11 }
        requires column { IsInReach level i }
        requires row { IsInReach level j }
        ensures { result ≡ level_height self.now level i j }
    {
        let spacing = spacing(level);
        self.sample(i * spacing, j * spacing)
    }

    /// Copies heights of row `row` of the finest level, from column `column` on, in metres: as many as there are places,
    /// which all lie in the grid.
    pub fn copy_row(&self, column: u32, row: u32, out: &mut [i16])
        requires columns { column + length out.old ≤ self.now.width }
        requires row { row < self.now.height }
        ensures { (k : ℕ) → k < length out.new → slice_index_or out.new k (pos 0) ≡
            level_height self.now 0 (pos (column + k)) (pos row) }
    {
        let start = row as usize * self.width as usize + column as usize;
        out.copy_from_slice(&self.heights[start..start + out.len()]);
    }

    // The height at column `x` and row `y`, and 0 outside the grid.
    #[tactic(auto, unfolding(terrain_model::specs::Terrain::height_at))]
    fn sample(&self, x: i32, y: i32) -> i16
        ensures { result ≡ height_at self.now x y }
    {
        if x < 0 || y < 0 {
            return 0;
        }
        let column = x as u32;
        let row = y as u32;
        if column >= self.width || row >= self.height {
            return 0;
        }
        self.heights[row as usize * self.width as usize + column as usize]
    }
}

// The distance in samples of two cells of a level, 0 to 11, that are next to each other.
fn spacing(level: u8) -> i32
    requires { level ≤ 11 }
    ensures { result ≡ pos (2 ^ level) }
{
    1 << level
}
