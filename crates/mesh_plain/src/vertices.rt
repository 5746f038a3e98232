//! The vertices of a mesh.

ghost use Rattle.std.specs.Prelude.{◌≡◌, ◌≤◌, IfOk, All, length, map};
ghost use Rattle.plan_model.specs.Limits.{IsSize};
ghost use Rattle.mesh_model.specs.Vertices.{mesh_vertices, vertex_at};
ghost use Rattle.mesh_plain.specs.Rings.{level_cell};
ghost use Rattle.mesh_plain_heights.specs.Drawn.{IsDrawnCell};
ghost use Rattle.mesh_plain.specs.Frames.{AreDrawn};

use crate::rings::listed_vertices;
use clip_regions::Region;
use height_pyramid::Grid;
use mesh_model::Vertex;
use mesh_plain_heights::{Cell, position_of, vertex_height};
use obj_frames::NoMemory;
use std::alloc::{AllocError, Global};

// The vertex at a cell.
fn vertex_at(terrain: &Grid, k: u8, actives: &[Region], cell: &Cell) -> Vertex
    requires size { IsSize k }
    requires levels { length actives.now ≤ 12 }
    requires cell { IsDrawnCell actives.now cell.now }
    ensures { result ≡ vertex_at terrain.now k actives.now (level_cell cell.now) }
{
    let at = position_of(cell);
    Vertex {
        x: at.x,
        z: at.z,
        height: vertex_height(terrain, k, actives, cell),
    }
}

// The vertices at some cells.
fn vertices_at(
    alloc: Global,
    terrain: &Grid,
    k: u8,
    actives: &[Region],
    cells: &[Cell],
) -> Result<Vec<Vertex>, AllocError>
    requires size { IsSize k }
    requires levels { length actives.now ≤ 12 }
    requires cells { All (IsDrawnCell actives.now) cells.now }
    ensures { IfOk result (λ vertices. vertices.items ≡
        map (λ cell. vertex_at terrain.now k actives.now (level_cell cell)) cells.now) }
{
    let mut vertices = Vec::new(alloc);
    for cell in cells {
        vertices.push(vertex_at(terrain, k, actives, cell))?;
    }
    Ok(vertices)
}

/// The vertices of the mesh of a terrain, for windows of side 2^k - 2 and the active regions of at most
/// 12 levels, finest first: level by level, row by row, and each position once.
pub fn mesh_vertices(
    alloc: Global,
    terrain: &Grid,
    k: u8,
    actives: &[Region],
) -> Result<Vec<Vertex>, NoMemory>
    requires size { IsSize k }
    requires levels { length actives.now ≤ 12 }
    requires drawn { AreDrawn 0 actives.now }
    ensures value { IfOk result (λ v. v.items ≡ mesh_vertices terrain.now k actives.now) }
{
    let cells = listed_vertices(alloc, actives)?;
    let vertices = vertices_at(alloc, terrain, k, actives, cells.as_slice())?;
    Ok(vertices)
}
