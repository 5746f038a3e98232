//! The bounds of a part.

ghost use Rattle.std.specs.Prelude.{◌≡◌, map, pos};
ghost use Rattle.mesh_model.specs.Mesh.{vertices_of, bounds_of};
ghost use Rattle.mesh_model.specs.Vertices.{vertex_of_place};
ghost use Rattle.ring_mesh.specs.Boxes.{point_box, wider, widest, Holds, HoldsCorners};

use obj_frames::{Bounds, Vertex};

// The vertex with this place, or (0, 0, 0) where there is none.
fn vertex_named(vertices: &[Vertex], place: u32) -> Vertex
    ensures { result ≡ vertex_of_place vertices.now place }
{
    if (place as usize) < vertices.len() {
        vertices[place as usize]
    } else {
        Vertex {
            x: 0,
            z: 0,
            height: 0,
        }
    }
}

// The box of one vertex.
fn point(vertex: &Vertex) -> Bounds
    ensures { result ≡ point_box vertex.now }
{
    Bounds {
        x0: vertex.x,
        x1: vertex.x,
        z0: vertex.z,
        z1: vertex.z,
        low: vertex.height,
        high: vertex.height,
    }
}

// The least box that holds a box and a vertex.
fn widened(bounds: Bounds, vertex: &Vertex) -> Bounds
    ensures { result ≡ wider bounds vertex.now }
{
    Bounds {
        x0: bounds.x0.min(vertex.x),
        x1: bounds.x1.max(vertex.x),
        z0: bounds.z0.min(vertex.z),
        z1: bounds.z1.max(vertex.z),
        low: bounds.low.min(vertex.height),
        high: bounds.high.max(vertex.height),
    }
}

// The least box that holds a box and the vertex with this place, where the box holds those with two other places.
fn widened_unless(bounds: Bounds, vertices: &[Vertex], place: u32, one: u32, two: u32) -> Bounds
    requires one { Holds bounds vertices.now one }
    requires two { Holds bounds vertices.now two }
    ensures { result ≡ wider bounds (vertex_of_place vertices.now place) }
{
    if place == one || place == two {
        return bounds;
    }
    widened(bounds, &vertex_named(vertices, place))
}

// The least box that holds a box and the vertices of a triangle, where the box holds those of the triangle before. One
// square's triangles have two of their vertices in common, and so have the nearest triangles of two squares in a row.
fn widened_by(bounds: Bounds, vertices: &[Vertex], before: &[u32; 3], triangle: &[u32; 3]) -> Bounds
    requires { HoldsCorners bounds vertices.now before.now }
    ensures { result ≡ widest bounds (map (vertex_of_place vertices.now) triangle.now) }
{
    let first = widened_unless(bounds, vertices, triangle[0], before[0], before[2]);
    let second = widened_unless(first, vertices, triangle[1], before[1], before[2]);
    widened(second, &vertex_named(vertices, triangle[2]))
}

// The box of no vertex.
fn no_box() -> Bounds
    ensures { result ≡ record { x0 = pos 0; x1 = pos 0; z0 = pos 0; z1 = pos 0; low = pos 0; high = pos 0 } }
{
    Bounds {
        x0: 0,
        x1: 0,
        z0: 0,
        z1: 0,
        low: 0,
        high: 0,
    }
}

/// The least and greatest column, row and height of the vertices of some triangles, all 0 where there is
/// none.
pub fn bounds_of(vertices: &[Vertex], triangles: &[[u32; 3]]) -> Bounds
    ensures value { result ≡ bounds_of (vertices_of vertices.now triangles.now) }
{
    if triangles.is_empty() {
        return no_box();
    }
    let first = triangles[0][0];
    let mut bounds = point(&vertex_named(vertices, first));
    let mut before = [first, first, first];
    for triangle in triangles {
        bounds = widened_by(bounds, vertices, &before, triangle);
        before = *triangle;
    }
    bounds
}
