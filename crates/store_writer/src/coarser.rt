//! The heights over which a level's codes are written.

ghost use Rattle.std.specs.Prelude.{◌≡◌, ◌+◌, ◌-◌, ◌<◌, ◌≤◌, IfOk};
ghost use Rattle.four_point.specs.Steps.{IsStep};
ghost use Rattle.store_writer.specs.Coarser.{coarser_height, AreRestored};

use crate::level::LevelOf;
use crate::table::{Table, restored_table};
use four_point::Heights;
use height_pyramid::Grid;
use rice_residuals::NoMemory;
use std::alloc::Global;

// The heights of a level as a reader of the store has them.
#[derive(Drop)]
pub(crate) enum Coarser<'a> {
    // Those of the grid.
    Exact(LevelOf<'a>),
    // The restored ones, within a step of those of the grid.
    Restored(Table),
}

impl<'a> Heights for Coarser<'a> {
    ghost use Rattle.store_writer.specs.Coarser.{coarser_height};

    ghost heights = { coarser_height };

    #[inline]
    fn height(&self, a: i32, b: i32) -> i16 {
        match self {
            Coarser::Exact(level) => level.height(a, b),
            Coarser::Restored(table) => table.height(a, b),
        }
    }
}

// The heights of the coarsest level.
pub(crate) fn coarsest<'a>(grid: &'a Grid, levels: u8, step: u8) -> Coarser<'a>
    requires some { 1 ≤ levels }
    requires few { levels ≤ 12 }
    ensures { AreRestored (coarser_height result) grid.now levels step (levels - 1) }
{
    let _step = step;
    Coarser::Exact(LevelOf::new(grid, levels - 1))
}

// The heights of the level below `coarser`: by a step of 1 those of the grid.
pub(crate) fn next_coarser<'a>(
    alloc: Global,
    grid: &'a Grid,
    levels: u8,
    level: u8,
    coarser: &Coarser<'a>,
    step: u8,
) -> Result<Coarser<'a>, NoMemory>
    requires below { level + 1 < levels }
    requires few { levels ≤ 12 }
    requires step { IsStep step }
    requires coarser { AreRestored (coarser_height coarser.now) grid.now levels step (level + 1) }
    ensures { IfOk result (λ heights. AreRestored (coarser_height heights) grid.now levels step level) }
{
    store_model::laws::restored_heights();
    let _width = grid.width();
    if step == 1 {
        return Ok(Coarser::Exact(LevelOf::new(grid, level)));
    }
    let table = restored_table(alloc, grid, level, coarser, step)?;
    Ok(Coarser::Restored(table))
}
