//! The text of the parts of a frame that a view keeps.

ghost use Rattle.std.specs.Prelude.{◌≡◌, ◌+◌, ◌^◌, ◌<◌, ◌++◌, ◌==◌, IfOk, OnOk, length, map, flat_map, pos, string_bytes, slice_index_or};
ghost use Rattle.std.specs.List.{list_any};
ghost use Rattle.mesh_model.specs.Conditions.{triangles_of_part};
ghost use Rattle.mesh_model.specs.Text.{vertex_line, triangle_line};
ghost use Rattle.mesh_model.specs.Seen.{is_named, kept_parts, named_places, new_place, seen_text, triangles_of_parts};

use crate::half_spaces::is_kept;
use crate::lines::{KeptLine, TriangleLine, VertexLine};
use crate::texts::{Head, write_head};
use clip_regions::Region;
use mesh_model::{HalfSpace, Part, Vertex};
use obj_frames::NoMemory;
use std::alloc::{AllocError, Global};

// The triangles of a part.
fn triangles_of_part<'a>(triangles: &'a [[u32; 3]], part: &Part) -> &'a [[u32; 3]]
    ensures { result.now ≡ triangles_of_part triangles.now part.now }
{
    let first = (part.first as usize).min(triangles.len());
    let rest = &triangles[first..];
    let count = (part.count as usize).min(rest.len());
    &rest[..count]
}

// The parts that a view keeps.
fn kept_parts(alloc: Global, parts: &[Part], view: &[HalfSpace]) -> Result<Vec<Part>, AllocError>
    ensures { IfOk result (λ kept. kept.items ≡ kept_parts view.now parts.now) }
{
    parts
        .iter()
        .copied()
        .filter(|part| is_kept(view, part))
        .collect(alloc)
}

// The triangles of some parts.
fn triangles_of_parts(
    alloc: Global,
    triangles: &[[u32; 3]],
    parts: &[Part],
) -> Result<Vec<[u32; 3]>, AllocError>
    ensures { IfOk result (λ found. found.items ≡ triangles_of_parts triangles.now parts.now) }
{
    let mut found = Vec::new(alloc);
    for part in parts {
        found.extend_from_slice(triangles_of_part(triangles, part))?;
    }
    Ok(found)
}

// Whether a triangle has the vertex at a place.
fn has_corner(triangle: &[u32; 3], place: u32) -> bool
    ensures { result ≡ list_any (λ corner. corner == place) triangle.now }
{
    triangle.contains(&place)
}

// Whether one of the triangles has the vertex at a place.
#[tactic(auto, unfolding(mesh_model::specs::Seen::is_named))]
fn is_named(triangles: &[[u32; 3]], place: u32) -> bool
    ensures { result ≡ is_named triangles.now place }
{
    triangles.iter().any(|triangle| has_corner(triangle, place))
}

// The places below a count that the triangles have, in their order.
#[tactic(auto, unfolding(mesh_model::specs::Seen::named_places))]
fn named_places(alloc: Global, triangles: &[[u32; 3]], count: u32) -> Result<Vec<u32>, AllocError>
    ensures { IfOk result (λ places. places.items ≡ named_places triangles.now count) }
{
    (0..count)
        .filter(|place| is_named(triangles, *place))
        .collect(alloc)
}

// A place numbered anew: how many of the places before it the triangles have.
fn new_place(triangles: &[[u32; 3]], place: u32) -> u32
    ensures { result ≡ new_place triangles.now place }
{
    let mut named = 0;
    for earlier in 0..place {
        if is_named(triangles, earlier) {
            named += 1;
        }
    }
    named
}

// A triangle with its places numbered anew.
fn renumbered(triangles: &[[u32; 3]], triangle: &[u32; 3]) -> [u32; 3]
    ensures { result ≡ map (new_place triangles.now) triangle.now }
{
    [
        new_place(triangles, triangle[0]),
        new_place(triangles, triangle[1]),
        new_place(triangles, triangle[2]),
    ]
}

// The vertex at a place, or the origin where there is none.
fn vertex_at(vertices: &[Vertex], place: u32) -> Vertex
    ensures { result ≡ slice_index_or vertices.now place (record { x = pos 0; z = pos 0; height = pos 0 }) }
{
    if (place as usize) < vertices.len() {
        vertices[place as usize]
    } else {
        Vertex {
            x: 0,
            z: 0,
            height: 0,
        }
    }
}

// Writes the lines of the vertices at these places.
fn write_vertices_at(
    text: &mut String,
    vertices: &[Vertex],
    places: &[u32],
) -> Result<(), AllocError>
    ensures { OnOk result (string_bytes text.new ≡ string_bytes text.old ++
        flat_map (λ place. vertex_line (slice_index_or vertices.now place
        (record { x = pos 0; z = pos 0; height = pos 0 }))) places.now) }
{
    for place in places {
        write!(text, "{}", VertexLine(vertex_at(vertices, *place)))?;
    }
    Ok(())
}

// Writes the lines of triangles whose places are numbered anew.
fn write_renumbered(text: &mut String, triangles: &[[u32; 3]]) -> Result<(), AllocError>
    ensures { OnOk result (string_bytes text.new ≡ string_bytes text.old ++
        flat_map (λ triangle. triangle_line (map (new_place triangles.now) triangle)) triangles.now) }
{
    for triangle in triangles {
        write!(text, "{}", TriangleLine(renumbered(triangles, triangle)))?;
    }
    Ok(())
}

/// The text of the parts of a frame that a view keeps: the head, a line that says how many of the parts
/// are kept, the triangles of these parts in their order, and only the vertices that these triangles
/// have, numbered anew.
pub fn seen_text(
    alloc: Global,
    head: &Head,
    actives: &[Region],
    vertices: &[Vertex],
    triangles: &[[u32; 3]],
    parts: &[Part],
    view: &[HalfSpace],
) -> Result<Vec<u8>, NoMemory>
    requires few { length vertices.now < 2 ^ 31 }
    ensures value { IfOk result (λ text. text.items
        ≡ seen_text head.now.number head.now.x head.now.y actives.now
        (record { vertices = vertices.now; triangles = triangles.now; parts = parts.now }) view.now) }
{
    let kept = kept_parts(alloc, parts, view)?;
    let seen = triangles_of_parts(alloc, triangles, kept.as_slice())?;
    let places = named_places(alloc, seen.as_slice(), vertices.len() as u32)?;
    let line = KeptLine {
        kept: kept.len(),
        whole: parts.len(),
    };
    let mut text = String::new(alloc);
    write_head(&mut text, head, actives)?;
    write!(text, "{line}")?;
    write_vertices_at(&mut text, vertices, places.as_slice())?;
    write_renumbered(&mut text, seen.as_slice())?;
    Ok(text.into_bytes())
}
