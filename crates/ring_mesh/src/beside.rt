//! The mesh of the rings, its levels made in groups side by side.

ghost use Rattle.std.specs.Prelude.{◌≡◌, ◌+◌, ◌<◌, ◌≤◌, ◌^◌, ◌++◌, length, IfOk};
ghost use Rattle.std.specs.Thread.{IsSync};
ghost use Rattle.plan_model.specs.Limits.{IsSize};
ghost use Rattle.mesh_model.specs.Rings.{unstitched};
ghost use Rattle.ring_mesh.specs.Listed.{vertices_left};
ghost use Rattle.ring_mesh.specs.Added.{AreFaces, parts_left, triangles_of};

use crate::assembly::assembled;
use crate::faces::{Faces, ring_faces};
use crate::groups::append_faces;
use crate::heights::Heights;
use crate::vertices::{ring_vertices, vertices_before};
use active_region::Actives;
use mesh_laws::{meshes_are_small, ring_parts_are_square_parts};
use mesh_model::parts_of_mesh;
use obj_frames::{Mesh, NoMemory, Vertex};
use std::alloc::{AllocError, Global};
use std::thread::{Threads, available_parallelism, join};

// Fewer vertices than these are made by one thread: with their triangles they take some milliseconds, and the lists of
// the other groups are copied.
const FEW: usize = 65536;

// How often the levels are halved: for about as many groups as there are processors.
fn depth_for<R: Threads>(rt: &R, vertices: usize) -> u8
    ensures { result ≤ 2 }
{
    if vertices < FEW {
        return 0;
    }
    match available_parallelism(rt) {
        Ok(count) => match count.get() {
            1 => 0,
            2 | 3 => 1,
            _ => 2,
        },
        Err(_) => 0,
    }
}

// The vertices of the levels from one to the last before another, halved so often, the halves side by side.
fn vertices_beside<R: Threads + Sync, G: Heights + Sync>(
    rt: &R,
    alloc: Global,
    room: usize,
    heights: &G,
    k: u8,
    actives: &Actives,
    from: u8,
    to: u8,
    depth: u8,
) -> Result<Vec<Vertex>, AllocError>
    requires k { IsSize k }
    requires regions { G.regions heights.now ≡ actives.now }
    requires order { from ≤ to }
    requires levels { to ≤ length actives.now }
    ensures value { IfOk result (λ vertices.
        vertices.items ++ vertices_left (G.terrain heights.entry.now) k actives.entry.now to
        ≡ vertices_left (G.terrain heights.entry.now) k actives.entry.now from) }
{
    if depth == 0 {
        return ring_vertices(alloc, room, heights, k, actives, from, to);
    }
    let middle = from + (to - from) / 2;
    let theirs = move || -> Result<Vec<Vertex>, AllocError>
        requires { IsSync R.row × IsSync G.row × (0 < depth) × IsSize k
            × (G.regions heights.now ≡ actives.now) × (middle ≤ to) × (to ≤ length actives.now) }
        ensures { IfOk result (λ vertices.
            vertices.items ++ vertices_left (G.terrain heights.entry.now) k actives.entry.now to
            ≡ vertices_left (G.terrain heights.entry.now) k actives.entry.now middle) }
    {
        let many = vertices_before(actives, to).saturating_sub(vertices_before(actives, middle));
        vertices_beside(rt, alloc, many, heights, k, actives, middle, to, depth - 1)
    };
    let mine = move || -> Result<Vec<Vertex>, AllocError>
        requires { IsSync R.row × IsSync G.row × (0 < depth) × IsSize k
            × (G.regions heights.now ≡ actives.now) × (from ≤ middle) × (middle ≤ length actives.now) }
        ensures { IfOk result (λ vertices.
            vertices.items ++ vertices_left (G.terrain heights.entry.now) k actives.entry.now middle
            ≡ vertices_left (G.terrain heights.entry.now) k actives.entry.now from) }
    {
        vertices_beside(
            rt,
            alloc,
            room,
            heights,
            k,
            actives,
            from,
            middle,
            depth - 1,
        )
    };
    let (behind, before) = join(rt, theirs, mine);
    let mut vertices = before?;
    let mut others = behind?;
    vertices.append(&mut others)?;
    Ok(vertices)
}

// The triangles and the parts of the levels from one to the last before another, halved so often, the halves side by
// side.
fn faces_beside<R: Threads + Sync>(
    rt: &R,
    alloc: Global,
    room: usize,
    vertices: &[Vertex],
    actives: &Actives,
    from: u8,
    to: u8,
    depth: u8,
) -> Result<Faces, AllocError>
    requires few { length (triangles_of (parts_left actives.now 0)) < 2 ^ 31 }
    requires order { from ≤ to }
    requires levels { to ≤ length actives.now }
    ensures faces { IfOk result (λ faces.
        AreFaces vertices.entry.now actives.entry.now from to faces.triangles.items faces.parts.items) }
{
    if depth == 0 {
        return ring_faces(alloc, room, vertices, actives, from, to);
    }
    let middle = from + (to - from) / 2;
    let theirs = move || -> Result<Faces, AllocError>
        requires { IsSync R.row × (0 < depth)
            × (length (triangles_of (parts_left actives.now 0)) < 2 ^ 31)
            × (middle ≤ to) × (to ≤ length actives.now) }
        ensures { IfOk result (λ faces.
            AreFaces vertices.entry.now actives.entry.now middle to faces.triangles.items faces.parts.items) }
    {
        let many = vertices_before(actives, to).saturating_sub(vertices_before(actives, middle));
        faces_beside(
            rt,
            alloc,
            2 * many,
            vertices,
            actives,
            middle,
            to,
            depth - 1,
        )
    };
    let mine = move || -> Result<Faces, AllocError>
        requires { IsSync R.row × (0 < depth)
            × (length (triangles_of (parts_left actives.now 0)) < 2 ^ 31)
            × (from ≤ middle) × (middle ≤ length actives.now) }
        ensures { IfOk result (λ faces.
            AreFaces vertices.entry.now actives.entry.now from middle faces.triangles.items faces.parts.items) }
    { faces_beside(rt, alloc, room, vertices, actives, from, middle, depth - 1) };
    let (behind, before) = join(rt, theirs, mine);
    let mut faces = before?;
    let others = behind?;
    append_faces(&mut faces, others, vertices, actives, from, middle, to)?;
    Ok(faces)
}

/// The mesh of [`rings`](crate::rings), a large one made by as many threads as pay on this machine.
///
/// The only refusal is want of memory.
pub fn rings_beside<R: Threads + Sync, G: Heights + Sync>(
    rt: &R,
    alloc: Global,
    k: u8,
    actives: &Actives,
    heights: &G,
) -> Result<Mesh, NoMemory>
    requires k { IsSize k }
    requires regions { G.regions heights.now ≡ actives.now }
    ensures value { IfOk result (λ mesh. mesh ≡ unstitched (G.terrain heights.now) k actives.now) }
{
    ring_parts_are_square_parts();
    meshes_are_small();
    parts_of_mesh();
    let levels = actives.levels();
    let room = vertices_before(actives, levels);
    let depth = depth_for(rt, room);
    let vertices = vertices_beside(rt, alloc, room, heights, k, actives, 0, levels, depth)?;
    let named = vertices.as_slice();
    let faces = faces_beside(rt, alloc, 2 * room, named, actives, 0, levels, depth)?;
    Ok(assembled(vertices, faces))
}
