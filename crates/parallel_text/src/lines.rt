//! Lines of a text, and their halves.

ghost use Rattle.std.specs.Prelude.{◌≡◌, ◌++◌, ◌≤◌, ◌+◌, OnOk, length};
ghost use Rattle.parallel_text.specs.Lines.{lines_text};

use mesh_model::Vertex;
use obj_frames::{NoMemory, append_triangles, append_vertices};

// The lines of some vertices, and then of some triangles.
#[derive(Clone, Copy)]
pub(crate) struct Lines<'a> {
    pub(crate) vertices: &'a [Vertex],
    pub(crate) triangles: &'a [[u32; 3]],
}

// How many lines there are.
pub(crate) fn count(lines: &Lines<'_>) -> usize {
    lines.vertices.len().saturating_add(lines.triangles.len())
}

// Cuts the lines in two, which have as many lines or the first one fewer.
pub(crate) fn halves<'a>(lines: &Lines<'a>) -> (Lines<'a>, Lines<'a>)
    ensures { lines_text lines.now.vertices.now lines.now.triangles.now
        ≡ lines_text result.0.vertices.now result.0.triangles.now
        ++ lines_text result.1.vertices.now result.1.triangles.now }
{
    let half = count(lines) / 2;
    if half <= lines.vertices.len() {
        let (front, back) = lines.vertices.split_at(half);
        let (none, _) = lines.triangles.split_at(0);
        return (
            Lines {
                vertices: front,
                triangles: none,
            },
            Lines {
                vertices: back,
                triangles: lines.triangles,
            },
        );
    }
    let (_, none) = lines.vertices.split_at(lines.vertices.len());
    let (front, back) = lines
        .triangles
        .split_at((half - lines.vertices.len()).min(lines.triangles.len()));
    (
        Lines {
            vertices: lines.vertices,
            triangles: front,
        },
        Lines {
            vertices: none,
            triangles: back,
        },
    )
}

// Appends the lines.
#[tactic(auto, unfolding(crate::specs::Lines::lines_text))]
pub(crate) fn append(text: &mut Vec<u8>, lines: &Lines<'_>) -> Result<(), NoMemory>
    ensures { OnOk result (text.new.items
        ≡ text.old.items ++ lines_text lines.now.vertices.now lines.now.triangles.now) }
{
    append_vertices(text, lines.vertices)?;
    append_triangles(text, lines.triangles)
}
