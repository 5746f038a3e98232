//! How many vertices and triangles a mesh has.

ghost use Rattle.std.specs.Prelude.{◌≡◌, ◌^◌, ◌<◌, ◌≤◌, ◌↔◌, IsTrue, IfOk, ℕ, [], length, flat_map};
ghost use Rattle.terrain_model.specs.Terrain.{Terrain};
ghost use Rattle.mesh_model.specs.Vertices.{listed_vertices};
ghost use Rattle.mesh_model.specs.Parts.{parts_of_regions};
ghost use Rattle.mesh_model.specs.Mesh.{mesh};
ghost use Rattle.mesh_plain.specs.Frames.{AreDrawn};

use crate::meshes::all_triangles;
use crate::region_parts::parts_of_regions;
use crate::rings::listed_vertices;
use clip_regions::Region;
use obj_frames::NoMemory;
use std::alloc::Global;

/// Whether the mesh of these active regions has fewer than 2^31 vertices.
pub fn few_vertices(alloc: Global, actives: &[Region]) -> Result<bool, NoMemory>
    requires levels { length actives.now ≤ 12 }
    requires drawn { AreDrawn 0 actives.now }
    ensures value { IfOk result (λ few. IsTrue few ↔ (length (listed_vertices actives.now) < 2 ^ 31)) }
{
    let cells = listed_vertices(alloc, actives)?;
    Ok(cells.len() < 2147483648)
}

// How many triangles the mesh of these active regions has, over a list of no vertices.
fn triangle_count(alloc: Global, actives: &[Region]) -> Result<usize, NoMemory>
    requires levels { length actives.now ≤ 12 }
    requires drawn { AreDrawn 0 actives.now }
    ensures { IfOk result (λ count. count ≡
        length (flat_map (λ part. part.triangles) (parts_of_regions [] actives.now))) }
{
    let none = Vec::new(alloc);
    let parts = parts_of_regions(alloc, none.as_slice(), actives)?;
    let triangles = all_triangles(alloc, parts.as_slice())?;
    Ok(triangles.len())
}

/// Whether the mesh of these active regions has fewer than 2^31 triangles, over any terrain.
pub fn few_triangles(alloc: Global, actives: &[Region]) -> Result<bool, NoMemory>
    requires levels { length actives.now ≤ 12 }
    requires drawn { AreDrawn 0 actives.now }
    ensures value { IfOk result (λ few. (terrain : Terrain) (k : ℕ) → (IsTrue few ↔
        (length (mesh terrain k actives.now).triangles < 2 ^ 31))) }
{
    let count = triangle_count(alloc, actives)?;
    Ok(count < 2147483648)
}
