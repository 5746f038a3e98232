//! The cells of a region, as a list.

ghost use Rattle.std.specs.Prelude.{◌≡◌, ◌+◌, ◌^◌, ◌<◌, ◌++◌, map, IfOk, OnOk, pos, ◌+ℤ◌};
ghost use Rattle.std.specs.List.{range_with_len};
ghost use Rattle.clip_regions.specs.Regions;
ghost use Rattle.clip_regions.specs.Regions.{IsWithin, columns, rows};
ghost use Rattle.mesh_plain.specs.Cells.{cell_in, named};

use clip_regions::Region;
use mesh_plain_heights::Cell;
use obj_frames::NoMemory;
use std::alloc::{AllocError, Global};

// How many columns a region has.
pub(crate) fn columns(region: &Region) -> u32
    requires { IsWithin (2 ^ 24) region.now }
    ensures value { result ≡ columns region.now }
    ensures few { result < 2 ^ 26 }
{
    if region.x1 < region.x0 {
        0
    } else {
        (region.x1 - region.x0) as u32 + 1
    }
}

// How many rows a region has.
pub(crate) fn rows(region: &Region) -> u32
    requires { IsWithin (2 ^ 24) region.now }
    ensures value { result ≡ rows region.now }
    ensures few { result < 2 ^ 26 }
{
    if region.y1 < region.y0 {
        0
    } else {
        (region.y1 - region.y0) as u32 + 1
    }
}

// The cell in column u and row v of a region, counted from its corner.
pub(crate) fn cell_at(level: u8, region: &Region, v: u32, u: u32) -> Cell
    requires placed { IsWithin (2 ^ 24) region.now }
    requires column { u < 2 ^ 26 }
    requires row { v < 2 ^ 26 }
    ensures { result ≡ cell_in level region.now v u }
{
    Cell {
        level,
        i: region.x0 + u as i32,
        j: region.y0 + v as i32,
    }
}

// Adds a row of cells, from the west.
fn add_row(cells: &mut Vec<Cell>, level: u8, region: &Region, v: u32) -> Result<(), AllocError>
    requires placed { IsWithin (2 ^ 24) region.now }
    requires row { v < 2 ^ 26 }
    ensures { OnOk result (cells.new.items ≡ cells.old.items ++
        map (cell_in level region.now v) (range_with_len 0 (columns region.now))) }
{
    for u in 0..columns(region) {
        cells.push(cell_at(level, region, v, u))?;
    }
    Ok(())
}

/// The cells of a region with their level, row by row, each row from the west.
pub fn region_cells(alloc: Global, level: u8, region: &Region) -> Result<Vec<Cell>, NoMemory>
    requires { IsWithin (2 ^ 24) region.now }
    ensures value { IfOk result (λ cells. cells.items ≡ map (named level) (Regions.cells region.now)) }
{
    let mut cells = Vec::new(alloc);
    for v in 0..rows(region) {
        add_row(&mut cells, level, region, v)?;
    }
    Ok(cells)
}
