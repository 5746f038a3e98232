//! The whole store of a grid.

ghost use Rattle.std.specs.Prelude.{◌≡◌, ◌≤◌, ◌++◌, OnOk, IfOk};
ghost use Rattle.four_point.specs.Steps.{IsStep};
ghost use Rattle.terrain_model.specs.Terrain.{level_height};
ghost use Rattle.store_model.specs.Format.{IsVersion};
ghost use Rattle.store_model.specs.Restored.{canonical_store};
ghost use Rattle.store_writer.specs.Entries.{plain_entry, word_entry, level_entries};

use crate::block::{append_plain, append_word};
use crate::bytes::head;
use crate::cells::{block_count, cells_of_block};
use crate::coarser::{coarsest, next_coarser};
use crate::level::LevelOf;
use four_point::Heights;
use height_pyramid::Grid;
use rice_residuals::NoMemory;
use std::alloc::Global;

// Puts the blocks of a level as heights, row by row.
fn append_heights(out: &mut Vec<u8>, grid: &Grid, level: u8) -> Result<(), NoMemory>
    requires { level ≤ 11 }
    ensures { OnOk result (out.new.items ≡ out.old.items
        ++ level_entries (plain_entry (level_height grid.now level)) grid.now.width grid.now.height level) }
{
    let finer = LevelOf::new(grid, level);
    for k in 0..block_count(grid, level) {
        append_plain(out, &finer, cells_of_block(grid, level, k))?;
    }
    Ok(())
}

// Puts the blocks of a level as words of codes over the coarser heights, row by row.
fn append_words<C: Heights>(
    alloc: Global,
    out: &mut Vec<u8>,
    grid: &Grid,
    level: u8,
    coarser: &C,
    step: u8,
) -> Result<(), NoMemory>
    requires level { level ≤ 11 }
    requires step { IsStep step }
    ensures { OnOk result (out.new.items ≡ out.old.items
        ++ level_entries (word_entry (C.heights coarser.now) (level_height grid.now level) step)
        grid.now.width grid.now.height level) }
{
    let finer = LevelOf::new(grid, level);
    for k in 0..block_count(grid, level) {
        let cells = cells_of_block(grid, level, k);
        append_word(alloc, out, &finer, coarser, cells, step)?;
    }
    Ok(())
}

// The canonical store of a grid, of either version.
fn store_of(
    alloc: Global,
    grid: &Grid,
    version: u8,
    levels: u8,
    step: u8,
) -> Result<Vec<u8>, NoMemory>
    requires some { 1 ≤ levels }
    requires few { levels ≤ 12 }
    requires version { IsVersion version step }
    requires step { IsStep step }
    ensures { IfOk result (λ bytes. bytes.items ≡ canonical_store version grid.now levels step) }
{
    let mut out = head(alloc, grid, version, levels, step)?;
    append_heights(&mut out, grid, levels - 1)?;
    let mut coarser = coarsest(grid, levels, step);
    for n in 1..levels {
        let level = levels - 1 - n;
        append_words(alloc, &mut out, grid, level, &coarser, step)?;
        if level > 0 {
            coarser = next_coarser(alloc, grid, levels, level, &coarser, step)?;
        }
    }
    Ok(out)
}

/// The bytes of the canonical store, version 1, of a grid's heights in `levels` levels, 1 to 12. The store gives the
/// heights back exactly.
pub fn canonical_bytes(alloc: Global, grid: &Grid, levels: u8) -> Result<Vec<u8>, NoMemory>
    requires some { 1 ≤ levels }
    requires few { levels ≤ 12 }
    ensures { IfOk result (λ bytes. bytes.items ≡ canonical_store 1 grid.now levels 1) }
{
    store_of(alloc, grid, 1, levels, 1)
}

/// The bytes of the canonical store, version 2, of a grid's heights in `levels` levels, 1 to 12, by an odd step of 1 to
/// 255 metres. The store gives each height back to (`step` - 1) / 2 metres, so by the step 1 exactly.
pub fn canonical_bytes_by(
    alloc: Global,
    grid: &Grid,
    levels: u8,
    step: u8,
) -> Result<Vec<u8>, NoMemory>
    requires some { 1 ≤ levels }
    requires few { levels ≤ 12 }
    requires step { IsStep step }
    ensures { IfOk result (λ bytes. bytes.items ≡ canonical_store 2 grid.now levels step) }
{
    store_of(alloc, grid, 2, levels, step)
}
