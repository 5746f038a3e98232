//! The cells at which a mesh has its vertices.

ghost use Rattle.std.specs.Prelude.{◌≡◌, ◌≤◌, ◌^◌, ◌++◌, not, IfOk, OnOk, All, false, filter, length, map};
ghost use Rattle.clip_regions.specs.Regions.{IsWithin};
ghost use Rattle.mesh_model.specs.Vertices.{cells_outside, hole, listed_vertices};
ghost use Rattle.mesh_plain.specs.Cells.{named};
ghost use Rattle.mesh_plain.specs.Rings.{IsActive, is_outside, level_cell};

use crate::cells::region_cells;
use clip_regions::Region;
use mesh_plain_heights::Cell;
use obj_frames::NoMemory;
use std::alloc::{AllocError, Global};

/// What a finer active region leaves out of the next coarser one: its half, and nothing where it is empty.
pub fn hole(finer: &Region) -> Region
    requires { IsActive finer.now }
    ensures value { result ≡ hole finer.now }
{
    if finer.is_empty() {
        Region::empty()
    } else {
        finer.halve()
    }
}

// Whether a cell lies outside a gap.
fn is_outside(gap: &Region, cell: &Cell) -> bool
    ensures { result ≡ is_outside gap.now cell.now }
{
    !gap.contains(cell.i, cell.j)
}

// Adds those of the cells that lie outside the gap.
fn add_outside(listed: &mut Vec<Cell>, cells: &[Cell], gap: &Region) -> Result<(), AllocError>
    ensures { OnOk result (listed.new.items ≡ listed.old.items ++ filter (is_outside gap.now) cells.now) }
{
    for cell in cells {
        if is_outside(gap, cell) {
            listed.push(*cell)?;
        }
    }
    Ok(())
}

// Adds the cells of a level that lie neither in the hole nor on its border.
fn add_level(
    alloc: Global,
    listed: &mut Vec<Cell>,
    level: u8,
    finer: &Region,
    active: &Region,
) -> Result<(), NoMemory>
    requires finer { IsActive finer.now }
    requires active { IsWithin (2 ^ 24) active.now }
    ensures { OnOk result (listed.new.items ≡ listed.old.items ++
        map (named level) (cells_outside finer.now active.now)) }
{
    let cells = region_cells(alloc, level, active)?;
    add_outside(listed, cells.as_slice(), &hole(finer))?;
    Ok(())
}

/// The cells at which a mesh has its vertices: level by level from the finest, row by row, and each
/// position once, at the finest level that has it.
pub fn listed_vertices(alloc: Global, actives: &[Region]) -> Result<Vec<Cell>, NoMemory>
    requires levels { length actives.now ≤ 12 }
    requires actives { All IsActive actives.now }
    ensures value { IfOk result (λ listed. map level_cell listed.items ≡ listed_vertices actives.now) }
{
    let mut listed = Vec::new(alloc);
    let mut finer = Region::empty();
    let mut level = 0;
    for active in actives {
        add_level(alloc, &mut listed, level, &finer, active)?;
        finer = *active;
        level += 1;
    }
    Ok(listed)
}
