//! The text of the parts of a frame that a view keeps.

ghost use Rattle.std.specs.Prelude.{◌≡◌, ◌+◌, ◌<◌, ◌≤◌, ◌^◌, ◌++◌, IfOk, OnOk, All, List, [], Bool, true, false, length, map, flat_map, set, pos, if◌then◌else◌, slice_index_or};
ghost use Rattle.std.specs.List.{range_with_len};
ghost use Rattle.mesh_model.specs.declared.shapes.HalfSpace.{HalfSpace};
ghost use Rattle.mesh_model.specs.Conditions.{NameVertices, triangles_of_part};
ghost use Rattle.mesh_model.specs.Text.{vertex_line, triangle_line};
ghost use Rattle.mesh_model.specs.Seen.{is_kept, flagged_parts, triangles_of_parts, named_places, new_place, seen_vertices, seen_triangles, parts_text, seen_text};
ghost use Rattle.obj_frames.specs.Renumbering.{marked, mark_at, vertex_lines, numbered};

use crate::line::ROOM;
use crate::lines::{append_kept, append_triangle, append_vertex};
use crate::memory::NoMemory;
use crate::mesh::Mesh;
use crate::text::{Header, append_head};
use itoa::Buffer;
use mesh_model::{Part, Vertex};
use std::alloc::Global;

/// The text of some parts of a frame, and the numbers that it tells.
#[derive(Drop)]
pub struct Culled {
    /// The text, as a Wavefront OBJ file.
    pub text: Vec<u8>,
    /// How many parts it has.
    pub parts: usize,
    /// How many vertices it has.
    pub vertices: usize,
    /// How many triangles it has.
    pub triangles: usize,
}

// Some parts of a mesh: their number and their triangles.
#[derive(Drop)]
struct Kept {
    parts: usize,
    triangles: Vec<[u32; 3]>,
}

// New numbers for the vertices of a mesh, and how many of them are taken.
#[derive(Drop)]
struct Numbers {
    table: Vec<u32>,
    taken: u32,
}

// The triangles of a part.
fn triangles_of_part<'a>(triangles: &'a [[u32; 3]], part: &Part) -> &'a [[u32; 3]]
    requires { part.now.first + part.now.count ≤ length triangles.now }
    ensures { result.now ≡ triangles_of_part triangles.now part.now }
{
    let first = part.first as usize;
    &triangles[first..first + part.count as usize]
}

// The parts whose flag is set.
fn kept_parts(alloc: Global, mesh: &Mesh, keep: &[bool]) -> Result<Kept, NoMemory>
    requires flags { length keep.now ≡ length mesh.now.parts }
    ensures parts { IfOk result (λ kept. kept.parts ≡ length (flagged_parts keep.now mesh.now.parts)) }
    ensures triangles { IfOk result (λ kept. kept.triangles.items
        ≡ triangles_of_parts mesh.now.triangles (flagged_parts keep.now mesh.now.parts)) }
{
    let triangles = mesh.triangles();
    let parts = mesh.parts();
    let mut kept = Kept {
        parts: 0,
        triangles: Vec::new(alloc),
    };
    for place in 0..parts.len() {
        if keep[place] {
            kept.parts += 1;
            kept.triangles
                .extend_from_slice(triangles_of_part(triangles, &parts[place]))?;
        }
    }
    Ok(kept)
}

// Marks the places of a triangle's vertices.
fn mark(table: &mut Vec<u32>, triangle: &[u32; 3])
    requires { All (λ place. place < length table.old.items) triangle.now }
    ensures { table.new.items ≡ marked table.old.items triangle.now }
{
    table[triangle[0] as usize] = 1;
    table[triangle[1] as usize] = 1;
    table[triangle[2] as usize] = 1;
}

// A table with 1 at each place below a count that the triangles have, and 0 at the others.
fn mark_all(alloc: Global, triangles: &[[u32; 3]], count: usize) -> Result<Vec<u32>, NoMemory>
    requires { NameVertices count triangles.now }
    ensures { IfOk result (λ table. table.items ≡ map (mark_at triangles.now) (range_with_len 0 count)) }
{
    let mut table = vec![in alloc; 0u32; count]?;
    for triangle in triangles {
        mark(&mut table, triangle);
    }
    Ok(table)
}

// Appends the line of a vertex where the triangles have it, and gives the number of the next one.
fn append_named(
    text: &mut Vec<u8>,
    line: &mut [u8; ROOM],
    vertex: &Vertex,
    is_named: bool,
    number: u32,
) -> Result<u32, NoMemory>
    requires { number < 2 ^ 31 }
    ensures text { OnOk result (text.new.items ≡ text.old.items ++ (if is_named then vertex_line vertex.now else [])) }
    ensures next { IfOk result (λ next. next ≡ number + (if is_named then 1 else 0)) }
{
    if is_named {
        append_vertex(text, line, vertex)?;
        return Ok(number + 1);
    }
    Ok(number)
}

// Appends the lines of the vertices that the triangles have, and numbers them anew.
fn append_vertices(
    alloc: Global,
    text: &mut Vec<u8>,
    line: &mut [u8; ROOM],
    vertices: &[Vertex],
    triangles: &[[u32; 3]],
) -> Result<Numbers, NoMemory>
    requires few { length vertices.now < 2 ^ 31 }
    requires places { NameVertices (length vertices.now) triangles.now }
    ensures text { OnOk result (text.new.items ≡ text.old.items
        ++ vertex_lines vertices.now (named_places triangles.now (length vertices.now))) }
    ensures table { IfOk result (λ numbers. numbers.table.items
        ≡ map (new_place triangles.now) (range_with_len 0 (length vertices.now))) }
    ensures taken { IfOk result (λ numbers. numbers.taken
        ≡ length (named_places triangles.now (length vertices.now))) }
{
    let mut table = mark_all(alloc, triangles, vertices.len())?;
    let mut taken = 0;
    for place in 0..vertices.len() {
        let is_named = table[place] == 1;
        table[place] = taken;
        taken = append_named(text, line, &vertices[place], is_named, taken)?;
    }
    Ok(Numbers { table, taken })
}

// A triangle whose places are numbered anew.
fn renumbered(triangle: &[u32; 3], table: &[u32]) -> [u32; 3]
    requires { All (λ place. place < length table.now) triangle.now }
    ensures { result ≡ map (numbered table.now) triangle.now }
{
    [
        table[triangle[0] as usize],
        table[triangle[1] as usize],
        table[triangle[2] as usize],
    ]
}

// Appends the lines of triangles whose places are numbered anew.
fn append_triangles(
    text: &mut Vec<u8>,
    line: &mut [u8; ROOM],
    triangles: &[[u32; 3]],
    table: &[u32],
) -> Result<(), NoMemory>
    requires { NameVertices (length table.now) triangles.now }
    ensures { OnOk result (text.new.items ≡ text.old.items
        ++ flat_map (λ triangle. triangle_line (map (numbered table.now) triangle)) triangles.now) }
{
    for triangle in triangles {
        append_triangle(text, line, &renumbered(triangle, table))?;
    }
    Ok(())
}

/// The text of the parts of a frame whose flag is set, as [`seen_text`] gives it, and how many parts, vertices and
/// triangles it has.
pub fn cull(alloc: Global, mesh: &Mesh, header: &Header, keep: &[bool]) -> Result<Culled, NoMemory>
    requires flags { length keep.now ≡ length mesh.now.parts }

    // The text and its numbers.
    ensures text { IfOk result (λ culled. culled.text.items
        ≡ parts_text header.now.number header.now.x header.now.y header.now.actives mesh.now
        (flagged_parts keep.now mesh.now.parts)) }
    ensures parts { IfOk result (λ culled. culled.parts ≡ length (flagged_parts keep.now mesh.now.parts)) }
    ensures vertices { IfOk result (λ culled. culled.vertices
        ≡ seen_vertices mesh.now (flagged_parts keep.now mesh.now.parts)) }
    ensures triangles { IfOk result (λ culled. culled.triangles
        ≡ seen_triangles mesh.now (flagged_parts keep.now mesh.now.parts)) }
{
    let kept = kept_parts(alloc, mesh, keep)?;
    let mut text = Vec::new(alloc);
    let mut digits = Buffer::new();
    let all = mesh.parts().len() as u64;
    append_head(&mut text, header)?;
    append_kept(&mut text, &mut digits, kept.parts as u64, all)?;
    let mut line = [0; ROOM];
    let numbers = append_vertices(
        alloc,
        &mut text,
        &mut line,
        mesh.vertices(),
        kept.triangles.as_slice(),
    )?;
    append_triangles(
        &mut text,
        &mut line,
        kept.triangles.as_slice(),
        numbers.table.as_slice(),
    )?;
    Ok(Culled {
        text,
        parts: kept.parts,
        vertices: numbers.taken as usize,
        triangles: kept.triangles.len(),
    })
}

/// The text of a frame with the parts that a view keeps, one flag a part: the head, a line that says how many of the
/// parts are kept, their triangles in their order, and only the vertices that these triangles have, numbered anew.
pub fn seen_text(
    alloc: Global,
    mesh: &Mesh,
    header: &Header,
    keep: &[bool],
) -> Result<Vec<u8>, NoMemory>
    requires flags { length keep.now ≡ length mesh.now.parts }

    // The text of the parts whose flag is set: for every view that keeps just these, the text of what it sees.
    ensures parts { IfOk result (λ text. text.items
        ≡ parts_text header.now.number header.now.x header.now.y header.now.actives mesh.now
        (flagged_parts keep.now mesh.now.parts)) }
    ensures views { IfOk result (λ text. (view : List HalfSpace) → keep.now ≡ map (is_kept view) mesh.now.parts →
        text.items ≡ seen_text header.now.number header.now.x header.now.y header.now.actives mesh.now view) }
{
    let culled = cull(alloc, mesh, header, keep)?;
    Ok(culled.text)
}
