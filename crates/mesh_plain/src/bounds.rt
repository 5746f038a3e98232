//! The bounds of a part.

ghost use Rattle.std.specs.Prelude.{◌≡◌, ◌++◌, IfOk, OnOk, map, flat_map, pos, get_or};
ghost use Rattle.mesh_model.specs.Mesh.{bounds_of, greatest, least, vertices_of};
ghost use Rattle.mesh_model.specs.Vertices.{vertex_of_place};

use mesh_model::{Bounds, Vertex};
use obj_frames::NoMemory;
use std::alloc::{AllocError, Global};

// The first of some numbers, or 0 where there is none.
fn first_or_zero(numbers: &[i32]) -> i32
    ensures { result ≡ get_or numbers.now 0 (pos 0) }
{
    if numbers.is_empty() { 0 } else { numbers[0] }
}

/// The least of some numbers, or 0 where there is none.
pub fn least(numbers: &[i32]) -> i32
    ensures value { result ≡ least numbers.now }
{
    let mut found = first_or_zero(numbers);
    for number in numbers {
        found = found.min(*number);
    }
    found
}

/// The greatest of some numbers, or 0 where there is none.
pub fn greatest(numbers: &[i32]) -> i32
    ensures value { result ≡ greatest numbers.now }
{
    let mut found = first_or_zero(numbers);
    for number in numbers {
        found = found.max(*number);
    }
    found
}

// The vertex with this place, or (0, 0, 0) where there is none.
fn vertex_named(vertices: &[Vertex], place: u32) -> Vertex
    ensures { result ≡ vertex_of_place vertices.now place }
{
    if (place as usize) < vertices.len() {
        vertices[place as usize]
    } else {
        Vertex {
            x: 0,
            z: 0,
            height: 0,
        }
    }
}

// Adds the vertices with these places.
fn add_named(found: &mut Vec<Vertex>, vertices: &[Vertex], places: &[u32]) -> Result<(), AllocError>
    ensures { OnOk result (found.new.items ≡ found.old.items ++ map (vertex_of_place vertices.now) places.now) }
{
    for place in places {
        found.push(vertex_named(vertices, *place))?;
    }
    Ok(())
}

/// The vertices of some triangles, in order; (0, 0, 0) stands for a place that no vertex has.
pub fn vertices_of(
    alloc: Global,
    vertices: &[Vertex],
    triangles: &[[u32; 3]],
) -> Result<Vec<Vertex>, NoMemory>
    ensures value { IfOk result (λ found. found.items ≡ vertices_of vertices.now triangles.now) }
{
    let mut found = Vec::new(alloc);
    for triangle in triangles {
        add_named(&mut found, vertices, triangle)?;
    }
    Ok(found)
}

// The columns of some vertices.
fn columns(alloc: Global, vertices: &[Vertex]) -> Result<Vec<i32>, AllocError>
    ensures { IfOk result (λ numbers. numbers.items ≡ map (λ v. v.x) vertices.now) }
{
    vertices.iter().map(|v| v.x).collect(alloc)
}

// The rows of some vertices.
fn rows(alloc: Global, vertices: &[Vertex]) -> Result<Vec<i32>, AllocError>
    ensures { IfOk result (λ numbers. numbers.items ≡ map (λ v. v.z) vertices.now) }
{
    vertices.iter().map(|v| v.z).collect(alloc)
}

// The heights of some vertices.
fn heights(alloc: Global, vertices: &[Vertex]) -> Result<Vec<i32>, AllocError>
    ensures { IfOk result (λ numbers. numbers.items ≡ map (λ v. v.height) vertices.now) }
{
    vertices.iter().map(|v| v.height).collect(alloc)
}

/// The least and greatest column, row and height of some vertices.
pub fn bounds_of(alloc: Global, vertices: &[Vertex]) -> Result<Bounds, NoMemory>
    ensures value { IfOk result (λ bounds. bounds ≡ bounds_of vertices.now) }
{
    let columns = columns(alloc, vertices)?;
    let rows = rows(alloc, vertices)?;
    let heights = heights(alloc, vertices)?;
    Ok(Bounds {
        x0: least(columns.as_slice()),
        x1: greatest(columns.as_slice()),
        z0: least(rows.as_slice()),
        z1: greatest(rows.as_slice()),
        low: least(heights.as_slice()),
        high: greatest(heights.as_slice()),
    })
}
