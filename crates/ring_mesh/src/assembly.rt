//! The mesh of the rings.

ghost use Rattle.std.specs.Prelude.{◌≡◌, IfOk};
ghost use Rattle.plan_model.specs.Limits.{IsSize};
ghost use Rattle.mesh_model.specs.Rings.{unstitched};
ghost use Rattle.mesh_model.specs.Conditions.{IsMesh};

use crate::faces::{Faces, ring_faces};
use crate::heights::Heights;
use crate::vertices::{ring_vertices, vertices_before};
use active_region::Actives;
use mesh_laws::{meshes_are_small, ring_parts_are_square_parts};
use mesh_model::parts_of_mesh;
use obj_frames::{Mesh, NoMemory, Vertex};
use std::alloc::Global;

// The mesh of these vertices and faces.
pub(crate) fn assembled(vertices: Vec<Vertex>, faces: Faces) -> Mesh
    requires { IsMesh
        (record { vertices = vertices.items; triangles = faces.triangles.items; parts = faces.parts.items }) }
    ensures { result
        ≡ record { vertices = vertices.items; triangles = faces.triangles.items; parts = faces.parts.items } }
{
    let Faces { triangles, parts } = faces;
    Mesh::new(vertices, triangles, parts)
}

/// The mesh of a frame's active regions without its stitches: the vertices of all levels, each position once
/// at the finest level that has it, and the squares of each level outside the next finer one.
///
/// `k` sets the width of the blend, and `heights` names the same active regions. The only refusal is want of
/// memory.
pub fn rings<G: Heights>(
    alloc: Global,
    k: u8,
    actives: &Actives,
    heights: &G,
) -> Result<Mesh, NoMemory>
    requires k { IsSize k }
    requires regions { G.regions heights.now ≡ actives.now }
    ensures value { IfOk result (λ mesh. mesh ≡ unstitched (G.terrain heights.now) k actives.now) }
{
    ring_parts_are_square_parts();
    meshes_are_small();
    parts_of_mesh();
    let levels = actives.levels();
    let room = vertices_before(actives, levels);
    let vertices = ring_vertices(alloc, room, heights, k, actives, 0, levels)?;
    let faces = ring_faces(alloc, 2 * room, vertices.as_slice(), actives, 0, levels)?;
    Ok(assembled(vertices, faces))
}
