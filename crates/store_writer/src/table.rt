//! A table of the restored heights of a level.

ghost use Rattle.std.specs.Prelude.{◌≡◌, ℤ, ◌+◌, ◌<◌, ◌≤◌, ◌^◌, [], ◌∷◌, ◌++◌, pos, OnOk, IfOk, slice_index_or};
ghost use Rattle.four_point.specs.Patches.{patch_height, IsOfBlock};
ghost use Rattle.four_point.specs.Prediction.{prediction};
ghost use Rattle.four_point.specs.Steps.{IsStep, value_of, brought};
ghost use Rattle.terrain_model.specs.Terrain.{level_height};
ghost use Rattle.store_model.specs.Sizes.{level_region};
ghost use Rattle.store_writer.specs.Entries.{code_over};
ghost use Rattle.store_writer.specs.Cells.{region_of, AreCells, IsPatchOf};
ghost use Rattle.store_writer.specs.Tables.{restored_in, table_place, table_height, block_heights};

use crate::block::{code_at, is_coded, patch_of};
use crate::cells::{Cells, block_count, blocks_across, cells_of_block};
use crate::level::LevelOf;
use four_point::{BlockPredictions, Heights, bring, predict_block};
use height_pyramid::Grid;
use rice_residuals::NoMemory;
use std::alloc::Global;

// The heights of a level, block by block: 64 of each block, row by row, with 0 at cells outside the terrain.
#[derive(Drop)]
pub(crate) struct Table {
    // How many blocks a row of blocks has.
    pub(crate) across: u32,
    // The heights in metres.
    pub(crate) heights: Vec<i16>,
    ghost narrow: { across ≤ 2 ^ 26 },
}

// Where a table has a cell.
#[tactic(auto, unfolding(crate::specs::Tables::table_place))]
#[inline]
fn table_place(across: usize, i: usize, j: usize) -> usize
    requires narrow { across ≤ 2 ^ 26 }
    requires near_column { i ≤ 2 ^ 29 }
    requires near_row { j ≤ 2 ^ 29 }
    ensures { result ≡ table_place across i j }
{
    64 * (j / 8 * across + i / 8) + (8 * (j % 8) + i % 8)
}

// The height at a place of a table, and 0 past its end.
#[inline]
fn height_or_zero(heights: &[i16], place: usize) -> i16
    ensures { result ≡ slice_index_or heights.now place (pos 0) }
{
    if place < heights.len() {
        heights[place]
    } else {
        0
    }
}

impl Heights for Table {
    ghost heights = { λ t. table_height t.across t.heights.items };

    #[tactic(auto, unfolding(crate::specs::Tables::table_height))]
    #[inline]
    fn height(&self, a: i32, b: i32) -> i16 {
        if a < 0 || b < 0 {
            return 0;
        }
        let (i, j, across) = (a as usize, b as usize, self.across as usize);
        if i >= 8 * across {
            return 0;
        }
        height_or_zero(self.heights.as_slice(), table_place(across, i, j))
    }
}

// The height of a cell that its code gives.
fn coded_height<F: Heights>(
    predicted: &BlockPredictions<'_>,
    finer: &F,
    i: u32,
    j: u32,
    step: u8,
) -> i16
    requires column { IsOfBlock predicted.now.patch.now.i0 (pos i) }
    requires row { IsOfBlock predicted.now.patch.now.j0 (pos j) }
    requires near_column { i ≤ 2 ^ 27 }
    requires near_row { j ≤ 2 ^ 27 }
    requires step { IsStep step }
    ensures { result ≡ brought (value_of (patch_height predicted.now.patch.now) step (pos i) (pos j)
        (code_over (patch_height predicted.now.patch.now) (F.heights finer.now) step (pos i) (pos j))) }
{
    let code = code_at(predicted, finer, i, j, step);
    bring(predicted.value_by(i as i32, j as i32, code, step))
}

// The restored height of a cell of a block, and 0 where the cell lies outside the terrain.
fn restored_at<F: Heights, C: Heights>(
    predicted: &BlockPredictions<'_>,
    finer: &F,
    coarser: &C,
    cells: Cells,
    i: u32,
    j: u32,
    step: u8,
) -> i16
    requires cells { AreCells cells }
    requires patch { IsPatchOf cells predicted.now.patch.now }
    requires predictions { (i j : ℤ) → IsOfBlock predicted.now.patch.now.i0 i → IsOfBlock predicted.now.patch.now.j0 j
        → prediction (patch_height predicted.now.patch.now) i j ≡ prediction (C.heights coarser.now) i j }

    // The cell lies in the block.
    requires first_column { cells.x0 ≤ i }
    requires last_column { i < cells.x0 + 8 }
    requires first_row { cells.y0 ≤ j }
    requires last_row { j < cells.y0 + 8 }
    requires step { IsStep step }

    // It is the restored height of the definition.
    ensures { result
        ≡ restored_in (C.heights coarser.now) (F.heights finer.now) step (region_of cells) (pos i) (pos j) }
{
    if i >= cells.x0 + cells.columns || j >= cells.y0 + cells.rows {
        return 0;
    }
    if !is_coded(i, j) {
        return coarser.height((i / 2) as i32, (j / 2) as i32);
    }
    coded_height(predicted, finer, i, j, step)
}

// Puts a height behind those that are there.
#[inline]
fn push_height(out: &mut Vec<i16>, height: i16) -> Result<(), NoMemory>
    ensures { OnOk result (out.new.items ≡ out.old.items ++ height ∷ []) }
{
    if out.push(height).is_err() {
        return Err(NoMemory);
    }
    Ok(())
}

// Puts the 64 restored heights of a block.
fn append_restored<F: Heights, C: Heights>(
    out: &mut Vec<i16>,
    finer: &F,
    coarser: &C,
    cells: Cells,
    step: u8,
) -> Result<(), NoMemory>
    requires cells { AreCells cells }
    requires step { IsStep step }
    ensures { OnOk result (out.new.items ≡ out.old.items
        ++ block_heights (restored_in (C.heights coarser.now) (F.heights finer.now) step (region_of cells))
        cells.x0 cells.y0) }
{
    let patch = patch_of(coarser, cells);
    let predicted = predict_block(&patch);
    for n in 0..64 {
        let (i, j) = (cells.x0 + n % 8, cells.y0 + n / 8);
        push_height(
            out,
            restored_at(&predicted, finer, coarser, cells, i, j, step),
        )?;
    }
    Ok(())
}

// The restored heights of a level over those of the next coarser one.
pub(crate) fn restored_table<C: Heights>(
    alloc: Global,
    grid: &Grid,
    level: u8,
    coarser: &C,
    step: u8,
) -> Result<Table, NoMemory>
    requires level { level ≤ 11 }
    requires step { IsStep step }
    ensures { IfOk result (λ t. (i j : ℤ) → table_height t.across t.heights.items i j
        ≡ restored_in (C.heights coarser.now) (level_height grid.now level) step
        (level_region grid.now.width grid.now.height level) i j) }
{
    let finer = LevelOf::new(grid, level);
    let mut heights = Vec::new(alloc);
    for k in 0..block_count(grid, level) {
        append_restored(
            &mut heights,
            &finer,
            coarser,
            cells_of_block(grid, level, k),
            step,
        )?;
    }
    Ok(Table {
        across: blocks_across(grid, level),
        heights,
    })
}
