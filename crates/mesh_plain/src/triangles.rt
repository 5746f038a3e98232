//! The triangles of squares.

ghost use Rattle.std.specs.Prelude.{◌≡◌, ◌+◌, ◌^◌, ◌<◌, ◌++◌, IfOk, OnOk, flat_map, length, pos, ◌+ℤ◌};
ghost use Rattle.std.specs.List.{range_with_len};
ghost use Rattle.clip_regions.specs.Regions.{IsWithin, cells, columns, rows};
ghost use Rattle.mesh_model.specs.Parts.{square_triangles};
ghost use Rattle.mesh_plain.specs.Strips.{strip_square};
ghost use Rattle.mesh_plain_heights.specs.Placed.{IsPlacedAt, ArePlaced, IsSquarePlaced};

use crate::cells::{cell_at, columns, rows};
use clip_regions::Region;
use mesh_model::Vertex;
use mesh_plain_heights::{Cell, corner_place};
use obj_frames::NoMemory;
use std::alloc::{AllocError, Global};

// The cell east of a cell.
fn east_of(cell: &Cell) -> Cell
    requires { IsPlacedAt cell.now.level cell.now.i }
    ensures { result ≡ record { level = cell.now.level; i = cell.now.i +ℤ pos 1; j = cell.now.j } }
{
    Cell {
        level: cell.level,
        i: cell.i + 1,
        j: cell.j,
    }
}

// The cell south of a cell.
fn south_of(cell: &Cell) -> Cell
    requires { IsPlacedAt cell.now.level cell.now.j }
    ensures { result ≡ record { level = cell.now.level; i = cell.now.i; j = cell.now.j +ℤ pos 1 } }
{
    Cell {
        level: cell.level,
        i: cell.i,
        j: cell.j + 1,
    }
}

/// The two triangles of the square whose north-west corner is this cell.
pub fn square_triangles(vertices: &[Vertex], cell: &Cell) -> [[u32; 3]; 2]
    requires few { length vertices.now < 2 ^ 31 }
    requires level { cell.now.level < 12 }
    requires square { IsSquarePlaced cell.now }
    ensures value { result ≡ square_triangles vertices.now cell.now.level cell.now.i cell.now.j }
{
    let east = east_of(cell);
    let south = south_of(cell);
    let south_east = south_of(&east);
    let first = corner_place(vertices, cell);
    let last = corner_place(vertices, &south_east);
    [
        [first, corner_place(vertices, &south), last],
        [first, last, corner_place(vertices, &east)],
    ]
}

// Adds the triangles of a square.
fn add_square(
    triangles: &mut Vec<[u32; 3]>,
    vertices: &[Vertex],
    cell: &Cell,
) -> Result<(), AllocError>
    requires few { length vertices.now < 2 ^ 31 }
    requires level { cell.now.level < 12 }
    requires square { IsSquarePlaced cell.now }
    ensures { OnOk result (triangles.new.items ≡ triangles.old.items ++
        square_triangles vertices.now cell.now.level cell.now.i cell.now.j) }
{
    triangles.extend_from_slice(&square_triangles(vertices, cell))
}

// Adds the triangles of a row of squares, from the west.
fn add_strip(
    triangles: &mut Vec<[u32; 3]>,
    vertices: &[Vertex],
    level: u8,
    squares: &Region,
    v: u32,
) -> Result<(), AllocError>
    requires few { length vertices.now < 2 ^ 31 }
    requires level { level < 12 }
    requires within { IsWithin (2 ^ 24) squares.now }
    requires placed { ArePlaced level squares.now }
    requires row { v < rows squares.now }
    requires row_fits { v < 2 ^ 26 }

    // The triangles of the row's squares come after those that were there.
    ensures { OnOk result (triangles.new.items ≡ triangles.old.items ++
        flat_map (strip_square vertices.now level squares.now v) (range_with_len 0 (columns squares.now))) }
{
    for u in 0..columns(squares) {
        add_square(triangles, vertices, &cell_at(level, squares, v, u))?;
    }
    Ok(())
}

/// The triangles of the squares whose north-west corners are the cells of a region, row by row.
pub fn block_triangles(
    alloc: Global,
    vertices: &[Vertex],
    level: u8,
    squares: &Region,
) -> Result<Vec<[u32; 3]>, NoMemory>
    requires few { length vertices.now < 2 ^ 31 }
    requires level { level < 12 }
    requires within { IsWithin (2 ^ 24) squares.now }
    requires placed { ArePlaced level squares.now }
    ensures value { IfOk result (λ triangles. triangles.items ≡
        flat_map (λ cell. square_triangles vertices.now level cell.0 cell.1) (cells squares.now)) }
{
    let mut triangles = Vec::new(alloc);
    for v in 0..rows(squares) {
        add_strip(&mut triangles, vertices, level, squares, v)?;
    }
    Ok(triangles)
}
