//! The triangles of squares, row by row.

ghost use Rattle.std.specs.Prelude.{◌≡◌, ◌^◌, ◌<◌, ◌≤◌, ◌++◌, ◌∷◌, [], OnOk, pos, ◌+ℤ◌};
ghost use Rattle.clip_regions.specs.Regions.{columns, rows};
ghost use Rattle.mesh_laws.specs.Rings.{corner_of, ring_triangles};
ghost use Rattle.mesh_laws.specs.Conditions.{AreLinked};
ghost use Rattle.ring_mesh.specs.Squares.{HasSquares, square_row};

use crate::places::corner;
use crate::sizes::{columns, rows};
use clip_regions::Region;
use mesh_laws::Ring;
use std::alloc::AllocError;

// The places of the vertices at both ends of a square's western or eastern side.
#[derive(Clone, Copy)]
struct Edge {
    north: u32,
    south: u32,
}

// The side from the cell in column `u` of row `v` of some squares, counted from their north-west corner, to
// the cell south of it.
fn side_at(finer: &Ring, ring: &Ring, squares: &Region, v: u32, u: u32) -> Edge
    requires linked { AreLinked finer.now ring.now }
    requires squares { HasSquares ring.now.active squares.now }

    // The cell is one of the squares' corners, and has another south of it.
    requires some { 0 < columns squares.now }
    requires column { u ≤ columns squares.now }
    requires row { v < rows squares.now }
    requires few_columns { u ≤ 2 ^ 27 }
    requires few_rows { v < 2 ^ 28 }

    // The ends are the places of both.
    ensures north { result.north ≡ corner_of finer.now ring.now (squares.now.x0 +ℤ pos u) (squares.now.y0 +ℤ pos v) }
    ensures south { result.south ≡
        corner_of finer.now ring.now (squares.now.x0 +ℤ pos u) ((squares.now.y0 +ℤ pos v) +ℤ pos 1) }
{
    let i = squares.x0 + u as i32;
    let j = squares.y0 + v as i32;
    Edge {
        north: corner(finer, ring, i, j),
        south: corner(finer, ring, i, j + 1),
    }
}

// Adds the two triangles of the square between two sides.
fn add_square(triangles: &mut Vec<[u32; 3]>, west: &Edge, east: &Edge) -> Result<(), AllocError>
    ensures { OnOk result (triangles.new.items ≡ triangles.old.items
        ++ (west.now.north ∷ west.now.south ∷ east.now.south ∷ [])
        ∷ (west.now.north ∷ east.now.south ∷ east.now.north ∷ []) ∷ []) }
{
    triangles.extend_from_slice(&[
        [west.north, west.south, east.south],
        [west.north, east.south, east.north],
    ])
}

// Adds the triangles of row `v` of some squares, from the west. The eastern side of each square is the
// western one of the next.
#[tactic(auto, unfolding(crate::specs::Squares::square_row))]
fn add_row(
    triangles: &mut Vec<[u32; 3]>,
    finer: &Ring,
    ring: &Ring,
    squares: &Region,
    v: u32,
) -> Result<(), AllocError>
    requires linked { AreLinked finer.now ring.now }
    requires squares { HasSquares ring.now.active squares.now }
    requires row { v < rows squares.now }
    requires few_rows { v < 2 ^ 28 }
    ensures { OnOk result (triangles.new.items ≡ triangles.old.items ++ square_row finer.now ring.now squares.now v) }
{
    let width = columns(squares);
    if width == 0 {
        return Ok(());
    }
    let mut west = side_at(finer, ring, squares, v, 0);
    for u in 0..width {
        let east = side_at(finer, ring, squares, v, u + 1);
        add_square(triangles, &west, &east)?;
        west = east;
    }
    Ok(())
}

// Adds the triangles of the squares with these north-west corners, row by row.
pub(crate) fn add_squares(
    triangles: &mut Vec<[u32; 3]>,
    finer: &Ring,
    ring: &Ring,
    squares: &Region,
) -> Result<(), AllocError>
    requires linked { AreLinked finer.now ring.now }
    requires squares { HasSquares ring.now.active squares.now }
    ensures { OnOk result (triangles.new.items ≡ triangles.old.items ++ ring_triangles finer.now ring.now squares.now) }
{
    for v in 0..rows(squares) {
        add_row(triangles, finer, ring, squares, v)?;
    }
    Ok(())
}
