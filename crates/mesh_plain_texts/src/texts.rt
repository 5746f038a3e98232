//! The text of a frame.

ghost use Rattle.std.specs.Prelude.{◌≡◌, ◌++◌, [], IfOk, OnOk, flat_map, string_bytes};
ghost use Rattle.mesh_model.specs.Text.{head_text, level_lines, vertex_line, triangle_line, frame_text};

use crate::lines::{FrameLine, LevelLine, TriangleLine, VertexLine, ViewerLine};
use clip_regions::Region;
use mesh_model::Vertex;
use obj_frames::NoMemory;
use std::alloc::{AllocError, Global};

/// What the head of a frame's text says besides its active regions.
#[derive(Debug, Clone, Copy, PartialEq, Eq)]
pub struct Head {
    /// The frame's number, counted from 0.
    pub number: u64,
    /// The viewer's column at the frame's beginning, in samples.
    pub x: i32,
    /// The viewer's row at the frame's beginning, in samples.
    pub y: i32,
}

// Writes a line for each level, from the finest.
fn write_levels(text: &mut String, actives: &[Region]) -> Result<(), AllocError>
    ensures { OnOk result (string_bytes text.new ≡ string_bytes text.old ++ level_lines 0 actives.now) }
{
    for (level, active) in actives.iter().enumerate() {
        let line = LevelLine {
            level,
            active: *active,
        };
        write!(text, "{line}")?;
    }
    Ok(())
}

// Writes the lines at the head.
pub(crate) fn write_head(
    text: &mut String,
    head: &Head,
    actives: &[Region],
) -> Result<(), AllocError>
    ensures { OnOk result (string_bytes text.new ≡ string_bytes text.old ++
        head_text head.now.number head.now.x head.now.y actives.now) }
{
    let Head { number, x, y } = *head;
    let frame = FrameLine { number };
    let viewer = ViewerLine { x, y };
    write!(text, "{frame}{viewer}")?;
    write_levels(text, actives)
}

// Writes a line for each vertex.
fn write_vertices(text: &mut String, vertices: &[Vertex]) -> Result<(), AllocError>
    ensures { OnOk result (string_bytes text.new ≡ string_bytes text.old ++ flat_map vertex_line vertices.now) }
{
    for vertex in vertices {
        write!(text, "{}", VertexLine(*vertex))?;
    }
    Ok(())
}

// Writes a line for each triangle.
fn write_triangles(text: &mut String, triangles: &[[u32; 3]]) -> Result<(), AllocError>
    ensures { OnOk result (string_bytes text.new ≡ string_bytes text.old ++ flat_map triangle_line triangles.now) }
{
    for triangle in triangles {
        write!(text, "{}", TriangleLine(*triangle))?;
    }
    Ok(())
}

/// The text of a frame as a Wavefront OBJ file: the frame's number, the viewer and the active region of
/// each level, finest first, as comments, then a line `v x height y` for each vertex, its height in
/// metres with five digits after the point, and a line `f a b c` for each triangle, its vertices counted
/// from 1.
pub fn frame_text(
    alloc: Global,
    head: &Head,
    actives: &[Region],
    vertices: &[Vertex],
    triangles: &[[u32; 3]],
) -> Result<Vec<u8>, NoMemory>
    ensures value { IfOk result (λ text. text.items ≡
        frame_text head.now.number head.now.x head.now.y actives.now
        (record { vertices = vertices.now; triangles = triangles.now; parts = [] })) }
{
    let mut text = String::new(alloc);
    write_head(&mut text, head, actives)?;
    write_vertices(&mut text, vertices)?;
    write_triangles(&mut text, triangles)?;
    Ok(text.into_bytes())
}
