//! A frame that ends, drawn: its name, its text, and the line that tells of it.

ghost use Rattle.std.specs.Prelude.{◌≡◌, ◌<◌, ◌∷◌, [], IsSome, IfOk, length, map, string_bytes};
ghost use Rattle.std.specs.Thread.{IsSync};
ghost use Rattle.terrain_model.specs.Terrain.{Terrain};
ghost use Rattle.plan_model.specs.States.{OpenFrame, pass_at, frame_of};
ghost use Rattle.plan_holds.specs.Kept.{HasFrame};
ghost use Rattle.mesh_model.specs.Seen.{is_kept};
ghost use Rattle.book_plan.specs.Notes.{open_frame};
ghost use Rattle.run_actions.specs.Actions.{Put, Write};
ghost use Rattle.run_actions.specs.Runs.{HadReason, Ran};
ghost use Rattle.decode_workers.specs.Drawn.{IsFrameMesh};
ghost use Rattle.clip_desk.specs.Frames.{frame_name, mesh_of, seen_text_of, whole_text_of};
ghost use Rattle.clip_desk.specs.Lines.{mesh_line, seen_line};
ghost use Rattle.clip_desk.specs.Lines.{told_line};

use crate::lines::{KeptCounts, closed_line, closed_seen_line, frame_line};
use clip_book::{Book, FrameNote};
use clip_script::View;
use decode_workers::{NoMemory, draw, draw_beside, vertex_count};
use obj_frames::{Header, Mesh, Part, cull};
use outer_shelf::{Shelf, Sink};
use parallel_text::{frame_text_beside, pays, touched};
use region_cull::kept;
use run_actions::{Halt, put, write};
use std::alloc::{AllocError, Global};
use std::thread::{Threads, join};

/// A frame, drawn.
#[derive(Drop)]
pub struct Drawn {
    /// Its OBJ text.
    pub text: Vec<u8>,
    /// The line for the output.
    pub line: String,
}

// The head of a frame's text.
fn header_of(note: &FrameNote) -> Header
    ensures number { result.number ≡ note.now.number }
    ensures column { result.x ≡ note.now.x }
    ensures row { result.y ≡ note.now.y }
    ensures actives { result.actives ≡ note.now.actives }
{
    Header {
        number: note.number,
        x: note.x,
        y: note.y,
        actives: note.actives,
    }
}

// The name of a frame's file.
#[tactic(auto, unfolding(crate::specs::Frames::frame_name))]
fn frame_name(alloc: Global, name: &str, number: u64) -> Result<String, AllocError>
    ensures name { IfOk result (λ file. string_bytes file ≡ frame_name name.now number) }
{
    format!(in alloc; "{name}-{number}.obj")
}

/// The text of a frame of a pass that ends it, from the frame's mesh, and the line of its end. The text is made in the
/// room of another text.
pub fn print_whole<R: Threads + Sync>(
    rt: &R,
    alloc: Global,
    text: Vec<u8>,
    mesh: &Mesh,
    pass: u8,
    note: &FrameNote,
) -> Result<Drawn, AllocError>
    ensures text { IfOk result (λ drawn. drawn.text.items ≡ whole_text_of (open_frame note.now) mesh.now) }
    ensures line { IfOk result (λ drawn. string_bytes drawn.line ≡ mesh_line pass note.now.number mesh.now) }
{
    let Ok(text) = frame_text_beside(rt, alloc, text, mesh, &header_of(note)) else {
        return Err(AllocError);
    };
    let vertices = mesh.vertices().len();
    let line = closed_line(alloc, pass, note.number, vertices, mesh.triangles().len())?;
    Ok(Drawn { text, line })
}

// The mesh of the frame of a pass, and the text in whose room its own is to be made. For a large frame that room is
// made beside the mesh.
fn drawn_beside<R: Threads + Sync>(
    rt: &R,
    alloc: Global,
    text: Vec<u8>,
    book: &Book,
    pass: u8,
    note: &FrameNote,
) -> Result<(Mesh, Vec<u8>), NoMemory>
    requires pass { pass < 16 }
    requires frame { IsSome (frame_of (pass_at book.now.plan.state pass)) }
    ensures mesh { IfOk result (λ made. IsFrameMesh book.now pass made.0) }
{
    let lines = vertex_count(&note.actives).saturating_mul(3);
    if !pays(rt, lines) {
        let mesh = draw(alloc, book, pass)?;
        return Ok((mesh, text));
    }
    let room = move || -> Result<Vec<u8>, NoMemory> { touched(text, lines) };
    let drawing = move || -> Result<Mesh, NoMemory>
        requires { IsSync R.row × (pass < 16) × IsSome (frame_of (pass_at book.now.plan.state pass)) }
        ensures { IfOk result (IsFrameMesh book.entry.now pass) }
    { draw_beside(rt, alloc, book, pass) };
    let (text, mesh) = join(rt, room, drawing);
    Ok((mesh?, text?))
}

/// Draws the frame of a pass that ends it. Its text is made in the room of another text.
pub fn draw_whole<R: Threads + Sync>(
    rt: &R,
    alloc: Global,
    text: Vec<u8>,
    book: &Book,
    pass: u8,
    note: &FrameNote,
) -> Result<Drawn, AllocError>
    requires pass { pass < 16 }
    requires frame { HasFrame book.now.plan.state pass (open_frame note.now) }
    ensures text { IfOk result (λ drawn. drawn.text.items
        ≡ whole_text_of (open_frame note.now)
        (mesh_of book.now.land.terrain book.now.plan.state.k (open_frame note.now))) }
    ensures line { IfOk result (λ drawn. string_bytes drawn.line
        ≡ mesh_line pass note.now.number
        (mesh_of book.now.land.terrain book.now.plan.state.k (open_frame note.now))) }
{
    match drawn_beside(rt, alloc, text, book, pass, note) {
        Ok((mesh, text)) => print_whole(rt, alloc, text, &mesh, pass, note),
        Err(_) => Err(AllocError),
    }
}

/// Draws the frame of a pass that is told of alone, by its number and what its text has.
pub fn draw_alone<R: Threads + Sync>(
    rt: &R,
    alloc: Global,
    book: &Book,
    pass: u8,
    note: &FrameNote,
) -> Result<Drawn, AllocError>
    requires pass { pass < 16 }
    requires frame { HasFrame book.now.plan.state pass (open_frame note.now) }
    ensures text { IfOk result (λ drawn. drawn.text.items
        ≡ whole_text_of (open_frame note.now)
        (mesh_of book.now.land.terrain book.now.plan.state.k (open_frame note.now))) }
    ensures line { IfOk result (λ drawn. string_bytes drawn.line
        ≡ told_line note.now.number
        (length (mesh_of book.now.land.terrain book.now.plan.state.k (open_frame note.now)).vertices)
        (length (mesh_of book.now.land.terrain book.now.plan.state.k (open_frame note.now)).triangles)) }
{
    let Ok((mesh, text)) = drawn_beside(rt, alloc, Vec::new(alloc), book, pass, note) else {
        return Err(AllocError);
    };
    let Ok(text) = frame_text_beside(rt, alloc, text, &mesh, &header_of(note)) else {
        return Err(AllocError);
    };
    let vertices = mesh.vertices().len();
    let line = frame_line(alloc, note.number, vertices, mesh.triangles().len())?;
    Ok(Drawn { text, line })
}

// Which parts a view keeps, one flag a part.
fn kept_flags(alloc: Global, parts: &[Part], view: &View) -> Result<Vec<bool>, AllocError>
    ensures flags { IfOk result (λ flags. flags.items ≡ map (is_kept view.now) parts.now) }
{
    parts
        .iter()
        .map(|part| kept(&part.bounds, view))
        .collect(alloc)
}

/// Draws the parts of a pass's frame that a view keeps.
pub fn draw_seen(
    alloc: Global,
    book: &Book,
    pass: u8,
    note: &FrameNote,
    view: &View,
) -> Result<Drawn, AllocError>
    requires pass { pass < 16 }
    requires frame { HasFrame book.now.plan.state pass (open_frame note.now) }
    ensures text { IfOk result (λ drawn. drawn.text.items
        ≡ seen_text_of (open_frame note.now) view.now
        (mesh_of book.now.land.terrain book.now.plan.state.k (open_frame note.now))) }
    ensures line { IfOk result (λ drawn. string_bytes drawn.line
        ≡ seen_line pass note.now.number view.now
        (mesh_of book.now.land.terrain book.now.plan.state.k (open_frame note.now))) }
{
    let Ok(mesh) = draw(alloc, book, pass) else {
        return Err(AllocError);
    };
    let keep = kept_flags(alloc, mesh.parts(), view)?;
    let Ok(culled) = cull(alloc, &mesh, &header_of(note), keep.as_slice()) else {
        return Err(AllocError);
    };
    let counts = KeptCounts {
        kept: culled.parts,
        parts: mesh.parts().len(),
        vertices: culled.vertices,
        triangles: culled.triangles,
    };
    let line = closed_seen_line(alloc, pass, note.number, counts)?;
    Ok(Drawn {
        text: culled.text,
        line,
    })
}

/// Puts a frame under a name, and then writes its line.
pub fn put_frame<S: Shelf, K: Sink>(
    shelf: &mut S,
    out: &mut K,
    name: &str,
    drawn: &Drawn,
) -> Result<(), Halt>
    ensures ran { Ran S.leaves 0
        (Put name.now drawn.now.text.items ∷ Write (string_bytes drawn.now.line) ∷ []) result
        (S.told shelf.old) (S.told shelf.new) (K.told out.old) (K.told out.new) }
    ensures reason { HadReason result (S.told shelf.old) (S.told shelf.new) (K.told out.old) (K.told out.new) }
{
    put(shelf, name, drawn.text.as_slice())?;
    write(out, drawn.line.as_bytes())
}

/// Puts a frame under its number, and then writes its line.
pub fn put_numbered<S: Shelf, K: Sink>(
    alloc: Global,
    name: &str,
    number: u64,
    drawn: &Drawn,
    shelf: &mut S,
    out: &mut K,
) -> Result<(), Halt>
    ensures ran { Ran S.leaves 0
        (Put (frame_name name.now number) drawn.now.text.items ∷ Write (string_bytes drawn.now.line) ∷ []) result
        (S.told shelf.old) (S.told shelf.new) (K.told out.old) (K.told out.new) }
    ensures reason { HadReason result (S.told shelf.old) (S.told shelf.new) (K.told out.old) (K.told out.new) }
{
    match frame_name(alloc, name, number) {
        Ok(file) => put_frame(shelf, out, file.as_str(), drawn),
        Err(_) => Err(Halt::NoMemory),
    }
}
