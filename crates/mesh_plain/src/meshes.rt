//! The mesh of some parts.

ghost use Rattle.std.specs.Prelude.{◌≡◌, ◌+◌, ◌^◌, ◌<◌, ◌≤◌, ◌++◌, ◌∷◌, [], IfOk, OnOk, flat_map, length};
ghost use Rattle.plan_model.specs.Limits.{IsSize};
ghost use Rattle.mesh_model.specs.Mesh.{parts_from, mesh_of_parts, part_at, mesh};
ghost use Rattle.mesh_model.specs.Vertices.{listed_vertices};
ghost use Rattle.mesh_plain.specs.Frames.{AreDrawn};

use crate::bounds::{bounds_of, vertices_of};
use crate::parts::PlainPart;
use crate::region_parts::parts_of_regions;
use crate::vertices::mesh_vertices;
use clip_regions::Region;
use height_pyramid::Grid;
use mesh_model::{Part, Vertex};
use obj_frames::NoMemory;
use std::alloc::{AllocError, Global};
use std::marker::Model;

/// A mesh: its vertices, its triangles as the places of their three vertices, counted from 0, and its
/// parts.
#[derive(Drop)]
pub struct PlainMesh {
    vertices: Vec<Vertex>,
    triangles: Vec<[u32; 3]>,
    parts: Vec<Part>,
}

impl Model for PlainMesh {
    ghost use Rattle.mesh_model.specs.Mesh.{MeshLists};

    ghost Value = { MeshLists };

    ghost view = { λ m. record { vertices = m.vertices.items; triangles = m.triangles.items; parts = m.parts.items } };
}

impl PlainMesh {
    /// The vertices, in their order.
    pub fn vertices(&self) -> &[Vertex]
        ensures value { result.now ≡ self.now.vertices }
    {
        &self.vertices
    }

    /// The triangles, part by part.
    pub fn triangles(&self) -> &[[u32; 3]]
        ensures value { result.now ≡ self.now.triangles }
    {
        &self.triangles
    }

    /// The parts, in the order of their triangles.
    pub fn parts(&self) -> &[Part]
        ensures value { result.now ≡ self.now.parts }
    {
        &self.parts
    }
}

/// A part whose first triangle has this place among those of the mesh, with the bounds of its triangles.
pub fn part_at(
    alloc: Global,
    vertices: &[Vertex],
    first: u32,
    part: &PlainPart,
) -> Result<Part, NoMemory>
    requires few { length part.now.triangles < 2 ^ 31 }
    ensures value { IfOk result (λ found. found ≡ part_at vertices.now first part.now) }
{
    let triangles = part.triangles();
    let corners = vertices_of(alloc, vertices, triangles)?;
    let bounds = bounds_of(alloc, corners.as_slice())?;
    Ok(Part {
        level: part.level(),
        kind: part.kind(),
        first,
        count: triangles.len() as u32,
        bounds,
    })
}

// Adds a part of a mesh.
fn push_part(listed: &mut Vec<Part>, part: Part) -> Result<(), AllocError>
    ensures { OnOk result (listed.new.items ≡ listed.old.items ++ part ∷ []) }
{
    listed.push(part)?;
    Ok(())
}

// Adds a part whose first triangle has this place.
fn add_part_at(
    alloc: Global,
    listed: &mut Vec<Part>,
    vertices: &[Vertex],
    first: u32,
    part: &PlainPart,
) -> Result<(), NoMemory>
    requires few { length part.now.triangles < 2 ^ 31 }
    ensures { OnOk result (listed.new.items ≡ listed.old.items ++ part_at vertices.now first part.now ∷ []) }
{
    let found = part_at(alloc, vertices, first, part)?;
    push_part(listed, found)?;
    Ok(())
}

// The place after those of a part's triangles, the first of which has this place.
fn place_after(first: u32, part: &PlainPart) -> u32
    requires { first + length part.now.triangles < 2 ^ 31 }
    ensures { result ≡ first + length part.now.triangles }
{
    first + part.triangles().len() as u32
}

/// The parts of a mesh, one after another.
pub fn listed_parts(
    alloc: Global,
    vertices: &[Vertex],
    parts: &[PlainPart],
) -> Result<Vec<Part>, NoMemory>
    requires few { length (flat_map (λ part. part.triangles) parts.now) < 2 ^ 31 }
    ensures value { IfOk result (λ listed. listed.items ≡ parts_from vertices.now 0 parts.now) }
{
    let mut listed = Vec::new(alloc);
    let mut first = 0;
    for part in parts {
        add_part_at(alloc, &mut listed, vertices, first, part)?;
        first = place_after(first, part);
    }
    Ok(listed)
}

// Adds the triangles of a part.
fn add_triangles(triangles: &mut Vec<[u32; 3]>, part: &PlainPart) -> Result<(), AllocError>
    ensures { OnOk result (triangles.new.items ≡ triangles.old.items ++ part.now.triangles) }
{
    triangles.extend_from_slice(part.triangles())
}

// The triangles of all parts, part by part.
pub(crate) fn all_triangles(alloc: Global, parts: &[PlainPart]) -> Result<Vec<[u32; 3]>, AllocError>
    ensures { IfOk result (λ triangles. triangles.items ≡ flat_map (λ part. part.triangles) parts.now) }
{
    let mut triangles = Vec::new(alloc);
    for part in parts {
        add_triangles(&mut triangles, part)?;
    }
    Ok(triangles)
}

/// The mesh with these vertices and these parts, which have fewer than 2^31 triangles.
pub fn mesh_of_parts(
    alloc: Global,
    vertices: Vec<Vertex>,
    parts: &[PlainPart],
) -> Result<PlainMesh, NoMemory>
    requires few { length (flat_map (λ part. part.triangles) parts.now) < 2 ^ 31 }
    ensures value { IfOk result (λ mesh. mesh ≡ mesh_of_parts vertices.items parts.now) }
{
    let listed = listed_parts(alloc, vertices.as_slice(), parts)?;
    let triangles = all_triangles(alloc, parts)?;
    Ok(PlainMesh {
        vertices,
        triangles,
        parts: listed,
    })
}

/// The mesh of a terrain, for windows of side 2^k - 2 and the active regions of at most 12 levels, finest
/// first.
///
/// [`are_drawn`](crate::are_drawn) tests the regions, and [`few_vertices`](crate::few_vertices) and
/// [`few_triangles`](crate::few_triangles) that the mesh is small enough.
pub fn mesh(alloc: Global, terrain: &Grid, k: u8, actives: &[Region]) -> Result<PlainMesh, NoMemory>
    requires size { IsSize k }
    requires levels { length actives.now ≤ 12 }
    requires drawn { AreDrawn 0 actives.now }
    requires few_vertices { length (listed_vertices actives.now) < 2 ^ 31 }
    requires few_triangles { length (mesh terrain.now k actives.now).triangles < 2 ^ 31 }
    ensures value { IfOk result (λ found. found ≡ mesh terrain.now k actives.now) }
{
    let vertices = mesh_vertices(alloc, terrain, k, actives)?;
    let parts = parts_of_regions(alloc, vertices.as_slice(), actives)?;
    mesh_of_parts(alloc, vertices, parts.as_slice())
}
