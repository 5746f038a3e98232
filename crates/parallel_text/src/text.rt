//! The text of a frame by several threads.

ghost use Rattle.std.specs.Prelude.{◌≡◌, ◌++◌, ◌<◌, ◌≤◌, IfOk, [], flat_map};
ghost use Rattle.std.specs.Thread.{IsSync};
ghost use Rattle.mesh_model.specs.Text.{frame_text};
ghost use Rattle.parallel_text.specs.Lines.{lines_text};

use crate::lines::{Lines, append, count, halves};
use crate::texts::{Texts, followed, joined};
use obj_frames::{Header, Mesh, NoMemory, append_head};
use std::alloc::Global;
use std::thread::{Threads, available_parallelism, join};

// How many bytes a line has, a little more than most.
const LINE: usize = 26;

// Fewer lines than these are printed by one thread: it takes a millisecond or two, and the threads' start as long as
// some thousand lines.
const FEW: usize = 65536;

// How often the lines are halved: not for a few lines, and else for about twice as many parts as there are processors.
pub(crate) fn depth_for<R: Threads>(rt: &R, lines: usize) -> u8
    ensures { result ≤ 4 }
{
    if lines < FEW {
        return 0;
    }
    match available_parallelism(rt) {
        Ok(count) => match count.get() {
            1 => 0,
            2 | 3 => 2,
            4..=7 => 3,
            _ => 4,
        },
        Err(_) => 0,
    }
}

// Appends lines to a text, halved so often, the halves side by side. All but the first of the parts are texts of their
// own.
fn printed<R: Threads + Sync>(
    rt: &R,
    alloc: Global,
    mut text: Vec<u8>,
    lines: Lines<'_>,
    depth: u8,
) -> Result<Texts, NoMemory>
    ensures { IfOk result (λ new. new.first.items ++ flat_map (λ other. other.items) new.others.items
        ≡ text.items ++ lines_text lines.entry.vertices.now lines.entry.triangles.now) }
{
    if depth == 0 {
        text.reserve(count(&lines).saturating_mul(LINE))?;
        append(&mut text, &lines)?;
        return Ok(Texts {
            first: text,
            others: Vec::new(alloc),
        });
    }
    let (front, back) = halves(&lines);
    let rest = Vec::new(alloc);
    let (vertices, triangles) = (back.vertices, back.triangles);
    let theirs = move || -> Result<Texts, NoMemory>
        requires { IsSync R.row × (0 < depth) × (rest.items ≡ []) }
        ensures { IfOk result (λ new. new.first.items ++ flat_map (λ other. other.items) new.others.items
            ≡ lines_text vertices.entry.now triangles.entry.now) }
    {
        printed(
            rt,
            alloc,
            rest,
            Lines {
                vertices,
                triangles,
            },
            depth - 1,
        )
    };
    let (vertices, triangles) = (front.vertices, front.triangles);
    let mine = move || -> Result<Texts, NoMemory>
        requires { IsSync R.row × (0 < depth) }
        ensures { IfOk result (λ new. new.first.items ++ flat_map (λ other. other.items) new.others.items
            ≡ text.items ++ lines_text vertices.entry.now triangles.entry.now) }
    {
        printed(
            rt,
            alloc,
            text,
            Lines {
                vertices,
                triangles,
            },
            depth - 1,
        )
    };
    let (behind, before) = join(rt, theirs, mine);
    let texts = followed(before?, behind?)?;
    Ok(texts)
}

/// The text of a frame: that of `obj_frames::frame_text`, printed by as many threads as pay on this machine.
///
/// `text` is emptied and its room is used again, so that the text of a frame may be made in that of an earlier one.
pub fn frame_text_beside<R: Threads + Sync>(
    rt: &R,
    alloc: Global,
    mut text: Vec<u8>,
    mesh: &Mesh,
    header: &Header,
) -> Result<Vec<u8>, NoMemory>
    ensures text { IfOk result (λ text. text.items
        ≡ frame_text header.now.number header.now.x header.now.y header.now.actives mesh.now) }
{
    let lines = Lines {
        vertices: mesh.vertices(),
        triangles: mesh.triangles(),
    };
    text.clear();
    append_head(&mut text, header)?;
    text.reserve(count(&lines).saturating_mul(LINE))?;
    let texts = printed(rt, alloc, text, lines, depth_for(rt, count(&lines)))?;
    let text = joined(texts)?;
    Ok(text)
}
