//! The lines of vertices and of triangles.

ghost use Rattle.std.specs.Prelude.{◌≡◌, ◌+◌, ◌<◌, ◌≤◌, ◌-◌, ◌∷◌, [], ◌^◌, IfOk, IfSome, MatchResult, Ok, length};
ghost use Rattle.mesh_lists.specs.Lines.{parts_after};
ghost use Rattle.mesh_lists.specs.Lists.{IsFace, IsNear, IsStop, lists_behind};
ghost use Rattle.mesh_lists.specs.Says.{are_apart, triangle_of, triangle_words, vertex_of, vertex_words};

use crate::head::Head;
use crate::height::height_of;
use crate::leading::{Grammar, read_leading};
use crate::lists::{ListsFault, TextLists};
use crate::words::{behind_first, coordinate_of, next_word, number_of};
use mesh_model::Vertex;
use std::alloc::Global;

// The vertex of three words.
#[tactic(auto, unfolding(crate::specs::Says::vertex_words))]
fn vertex_words(rest: &[u8]) -> Option<Vertex>
    ensures value { result ≡ vertex_words (parts_after 32 rest.now) }
    ensures near { IfSome result IsNear }
{
    let a = next_word(rest)?;
    let b = next_word(a.rest)?;
    let c = next_word(b.rest)?;
    if next_word(c.rest).is_some() {
        return None;
    }
    let x = coordinate_of(a.front)?;
    let height = height_of(b.front)?;
    let z = coordinate_of(c.front)?;
    Some(Vertex { x, z, height })
}

// The lines that say a vertex.
#[derive(Drop)]
struct VertexLine;

impl Grammar<Vertex> for VertexLine {
    ghost says = { λ _ line. vertex_of line };

    ghost fits = { λ _ vertex. IsNear vertex };

    #[tactic(auto, unfolding(crate::specs::Says::vertex_of))]
    fn read(&self, line: &[u8]) -> Option<Vertex> {
        let rest = behind_first(line, b"v")?;
        vertex_words(rest)
    }
}

// Whether no two of three numbers are equal.
#[tactic(auto, unfolding(crate::specs::Says::are_apart))]
fn are_apart(a: u32, b: u32, c: u32) -> bool
    ensures { result ≡ are_apart a b c }
{
    !((a == b || b == c) || c == a)
}

// The triangle of three words.
#[tactic(auto, unfolding(crate::specs::Says::triangle_words))]
fn triangle_words(rest: &[u8], count: u32) -> Option<[u32; 3]>
    ensures value { result ≡ triangle_words count (parts_after 32 rest.now) }
    ensures face { IfSome result (IsFace count) }
{
    let a = next_word(rest)?;
    let b = next_word(a.rest)?;
    let c = next_word(b.rest)?;
    if next_word(c.rest).is_some() {
        return None;
    }
    let a = number_of(a.front, count)?;
    let b = number_of(b.front, count)?;
    let c = number_of(c.front, count)?;
    if are_apart(a, b, c) {
        Some([a - 1, b - 1, c - 1])
    } else {
        None
    }
}

// The lines that say a triangle between so many vertices.
#[derive(Drop)]
struct TriangleLine {
    count: u32,
}

impl Grammar<[u32; 3]> for TriangleLine {
    ghost says = { λ grammar line. triangle_of grammar.count line };

    ghost fits = { λ grammar triangle. IsFace grammar.count triangle };

    #[tactic(auto, unfolding(crate::specs::Says::triangle_of))]
    fn read(&self, line: &[u8]) -> Option<[u32; 3]> {
        let rest = behind_first(line, b"f")?;
        triangle_words(rest, self.count)
    }
}

// The lists of the text behind a head, or the first bad line.
pub(crate) fn read_body(alloc: Global, head: Head<'_>) -> Result<TextLists, ListsFault>
    requires small { length head.text.now + head.lines ≤ 2 ^ 28 }
    ensures lists { let whole = lists_behind head.entry.lines head.entry.border head.entry.text.now in
        MatchResult result (λ lists. whole ≡ Ok lists) (IsStop whole) }
{
    let vertices = read_leading(alloc, &VertexLine, head.text)?;
    let count = vertices.all.len() as u32;
    let triangles = read_leading(alloc, &TriangleLine { count }, vertices.text)?;
    if !triangles.text.is_empty() {
        let said = count + triangles.all.len() as u32;
        return Err(ListsFault::BadLine {
            line: head.lines + said + 1,
        });
    }
    Ok(TextLists {
        vertices: vertices.all,
        triangles: triangles.all,
        border: head.border,
    })
}
