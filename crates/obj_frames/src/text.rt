//! The text of a frame.

ghost use Rattle.std.specs.Prelude.{◌≡◌, ◌++◌, IfOk, OnOk, flat_map};
ghost use Rattle.mesh_model.specs.Text.{head_text, level_lines, vertex_line, triangle_line, frame_text};

use crate::line::ROOM;
use crate::lines::{append_frame, append_level, append_triangle, append_vertex, append_viewer};
use crate::memory::NoMemory;
use crate::mesh::Mesh;
use active_region::Actives;
use itoa::Buffer;
use mesh_model::Vertex;
use std::alloc::Global;

/// What the head of a frame's text says.
#[derive(Debug, Clone, Copy, PartialEq, Eq)]
pub struct Header {
    /// The frame's number, counted from 0.
    pub number: u64,
    /// The viewer's column at the frame's beginning, in samples.
    pub x: i32,
    /// The viewer's row at the frame's beginning, in samples.
    pub y: i32,
    /// The active regions, the finest level first, each in cells of its level.
    pub actives: Actives,
}

// Appends the line of each level.
fn append_levels(text: &mut Vec<u8>, digits: &mut Buffer, actives: &Actives) -> Result<(), NoMemory>
    ensures { OnOk result (text.new.items ≡ text.old.items ++ level_lines 0 actives.now) }
{
    for level in 0..actives.levels() {
        append_level(text, digits, level, &actives.at(level))?;
    }
    Ok(())
}

/// Appends the lines at the head of a frame's text.
pub fn append_head(text: &mut Vec<u8>, header: &Header) -> Result<(), NoMemory>
    ensures { OnOk result (text.new.items
        ≡ text.old.items ++ head_text header.now.number header.now.x header.now.y header.now.actives) }
{
    let mut digits = Buffer::new();
    append_frame(text, &mut digits, header.number)?;
    append_viewer(text, &mut digits, header.x, header.y)?;
    append_levels(text, &mut digits, &header.actives)
}

/// Appends the line of each vertex.
pub fn append_vertices(text: &mut Vec<u8>, vertices: &[Vertex]) -> Result<(), NoMemory>
    ensures { OnOk result (text.new.items ≡ text.old.items ++ flat_map vertex_line vertices.now) }
{
    let mut line = [0; ROOM];
    for vertex in vertices {
        append_vertex(text, &mut line, vertex)?;
    }
    Ok(())
}

/// Appends the line of each triangle, given by the places of its vertices, counted from 0.
pub fn append_triangles(text: &mut Vec<u8>, triangles: &[[u32; 3]]) -> Result<(), NoMemory>
    ensures { OnOk result (text.new.items ≡ text.old.items ++ flat_map triangle_line triangles.now) }
{
    let mut line = [0; ROOM];
    for triangle in triangles {
        append_triangle(text, &mut line, triangle)?;
    }
    Ok(())
}

/// The text of a frame as a Wavefront OBJ file: the frame's number, the viewer and each level's active
/// region as comments, then a line `v x height y` for each vertex, its height in metres with five digits
/// after the point, and a line `f a b c` for each triangle, its vertices counted from 1.
pub fn frame_text(alloc: Global, mesh: &Mesh, header: &Header) -> Result<Vec<u8>, NoMemory>
    ensures text { IfOk result (λ text. text.items
        ≡ frame_text header.now.number header.now.x header.now.y header.now.actives mesh.now) }
{
    let mut text = Vec::new(alloc);
    append_head(&mut text, header)?;
    append_vertices(&mut text, mesh.vertices())?;
    append_triangles(&mut text, mesh.triangles())?;
    Ok(text)
}
