//! One block: its codes, its word, its heights as they are.

ghost use Rattle.std.specs.Prelude.{◌≡◌, ℤ, ◌+◌, ◌<◌, ◌≤◌, ◌^◌, ◌++◌, pos, OnOk};
ghost use Rattle.four_point.specs.Patches.{patch_height, IsOfBlock};
ghost use Rattle.four_point.specs.Steps.{IsStep, code_of};
ghost use Rattle.four_point.specs.Prediction.{prediction};
ghost use Rattle.rice_residuals.specs.Code.{IsResidual};
ghost use Rattle.rice_residuals.specs.List.{residual_list};
ghost use Rattle.store_model.specs.Blocks.{is_coded, coded_values, signed_bytes};
ghost use Rattle.store_writer.specs.Entries.{code_over, row_codes, row_heights, rows_heights, word_entry, plain_entry};
ghost use Rattle.clip_regions.specs.Regions.{rows};
ghost use Rattle.store_writer.specs.Cells.{region_of, AreCells, IsPatchOf};

use crate::bytes::{append, append_entry};
use crate::cells::Cells;
use four_point::{BlockPredictions, Heights, Patch, patch_around, predict_block};
use rice_residuals::{NoMemory, Residuals, write_block};
use std::alloc::Global;

// Whether a code stands for the cell in column `i` and row `j`: whether one of the two is odd.
#[tactic(auto, unfolding(store_model::specs::Blocks::is_coded, clip_regions::specs::FloorDivision::floor_rem))]
pub(crate) fn is_coded(i: u32, j: u32) -> bool
    ensures { result ≡ is_coded (pos i) (pos j) }
{
    !(i % 2 == 0 && j % 2 == 0)
}

// The code of a cell over the predictions of its block.
pub(crate) fn code_at<F: Heights>(
    predicted: &BlockPredictions<'_>,
    finer: &F,
    i: u32,
    j: u32,
    step: u8,
) -> i32
    requires column { IsOfBlock predicted.now.patch.now.i0 (pos i) }
    requires row { IsOfBlock predicted.now.patch.now.j0 (pos j) }
    requires near_column { i ≤ 2 ^ 27 }
    requires near_row { j ≤ 2 ^ 27 }
    requires step { IsStep step }

    // It is the code of the definition, and fits in a word.
    ensures value { result
        ≡ code_over (patch_height predicted.now.patch.now) (F.heights finer.now) step (pos i) (pos j) }
    ensures size { IsResidual result }
{
    let (column, row) = (i as i32, j as i32);
    predicted.code_by(column, row, finer.height(column, row), step)
}

// Puts the codes of row `j` of a block's cells.
fn push_row<F: Heights>(
    codes: &mut Residuals,
    predicted: &BlockPredictions<'_>,
    finer: &F,
    cells: Cells,
    j: u32,
    step: u8,
)
    requires cells { AreCells cells }
    requires patch { IsPatchOf cells predicted.now.patch.now }
    requires first_row { cells.y0 ≤ j }
    requires last_row { j < cells.y0 + cells.rows }
    requires step { IsStep step }

    // There is room for the row's codes.
    requires room { codes.old.count + cells.columns ≤ 64 }

    // The row's codes stand behind the others.
    ensures few { codes.new.count ≤ codes.old.count + cells.columns }
    ensures list { residual_list codes.new
        ≡ residual_list codes.old ++ row_codes
        (code_over (patch_height predicted.now.patch.now) (F.heights finer.now) step)
        (pos cells.x0) (pos j) cells.columns }
{
    for a in 0..cells.columns {
        let i = cells.x0 + a;
        if is_coded(i, j) {
            codes.push(code_at(predicted, finer, i, j, step));
        }
    }
}

// The codes of a block's cells, row by row.
fn codes_of<F: Heights>(
    predicted: &BlockPredictions<'_>,
    finer: &F,
    cells: Cells,
    step: u8,
) -> Residuals
    requires cells { AreCells cells }
    requires patch { IsPatchOf cells predicted.now.patch.now }
    requires step { IsStep step }
    ensures { residual_list result
        ≡ coded_values (code_over (patch_height predicted.now.patch.now) (F.heights finer.now) step) (region_of cells) }
{
    let mut codes = Residuals::none();
    for b in 0..cells.rows {
        push_row(&mut codes, predicted, finer, cells, cells.y0 + b, step);
    }
    codes
}

// The patch of coarser heights of a block's cells.
pub(crate) fn patch_of<C: Heights>(coarser: &C, cells: Cells) -> Patch
    requires { AreCells cells }
    ensures place { IsPatchOf cells result }
    ensures predictions { (i j : ℤ) → IsOfBlock result.i0 i → IsOfBlock result.j0 j
        → prediction (patch_height result) i j ≡ prediction (C.heights coarser.now) i j }
{
    patch_around(
        coarser,
        (cells.x0 / 2) as i32 - 1,
        (cells.y0 / 2) as i32 - 1,
    )
}

// Puts a block's length and the canonical word of its codes over the coarser heights.
pub(crate) fn append_word<F: Heights, C: Heights>(
    alloc: Global,
    out: &mut Vec<u8>,
    finer: &F,
    coarser: &C,
    cells: Cells,
    step: u8,
) -> Result<(), NoMemory>
    requires cells { AreCells cells }
    requires step { IsStep step }
    ensures { OnOk result (out.new.items
        ≡ out.old.items ++ word_entry (C.heights coarser.now) (F.heights finer.now) step (region_of cells)) }
{
    let patch = patch_of(coarser, cells);
    let predicted = predict_block(&patch);
    let codes = codes_of(&predicted, finer, cells, step);
    let word = write_block(alloc, &codes)?;
    rice_residuals::laws::canonical_words_are_short();
    append_entry(out, word.as_slice())
}

// A height in its two bytes, the high one first.
#[inline]
fn bytes_of(height: i16) -> [u8; 2]
    ensures { result ≡ signed_bytes height }
{
    height.to_be_bytes()
}

// The bytes of the height of a cell.
fn bytes_at<F: Heights>(finer: &F, i: u32, j: u32) -> [u8; 2]
    requires near_column { i ≤ 2 ^ 27 }
    requires near_row { j ≤ 2 ^ 27 }
    ensures { result ≡ signed_bytes (F.heights finer.now (pos i) (pos j)) }
{
    bytes_of(finer.height(i as i32, j as i32))
}

// Puts the heights of row `j` of a block's cells.
fn append_row<F: Heights>(
    out: &mut Vec<u8>,
    finer: &F,
    cells: Cells,
    j: u32,
) -> Result<(), NoMemory>
    requires cells { AreCells cells }
    requires near_row { j ≤ 2 ^ 27 }
    ensures { OnOk result (out.new.items
        ≡ out.old.items ++ row_heights (F.heights finer.now) (pos cells.x0) (pos j) cells.columns) }
{
    for a in 0..cells.columns {
        append(out, &bytes_at(finer, cells.x0 + a, j))?;
    }
    Ok(())
}

// Puts the heights of a block's cells, row by row.
fn append_rows<F: Heights>(out: &mut Vec<u8>, finer: &F, cells: Cells) -> Result<(), NoMemory>
    requires { AreCells cells }
    ensures { OnOk result (out.new.items
        ≡ out.old.items ++ rows_heights (F.heights finer.now) (region_of cells) (rows (region_of cells))) }
{
    for b in 0..cells.rows {
        append_row(out, finer, cells, cells.y0 + b)?;
    }
    Ok(())
}

// Puts a block's length and its heights as they are.
pub(crate) fn append_plain<F: Heights>(
    out: &mut Vec<u8>,
    finer: &F,
    cells: Cells,
) -> Result<(), NoMemory>
    requires { AreCells cells }
    ensures { OnOk result (out.new.items ≡ out.old.items ++ plain_entry (F.heights finer.now) (region_of cells)) }
{
    let length = 2 * (cells.columns * cells.rows) as u16;
    append(out, &length.to_be_bytes())?;
    append_rows(out, finer, cells)
}
