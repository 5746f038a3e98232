//! Drawing and printing a frame of a pass.

ghost use Rattle.std.specs.Prelude.{◌≡◌, IfOk};
ghost use Rattle.plan_model.specs.Limits.{IsSize};
ghost use Rattle.mesh_model.specs.Mesh.{mesh};
ghost use Rattle.book_plan.specs.Notes.{open_frame};
ghost use Rattle.clip_gate.specs.Calls.{HasWaited};
ghost use Rattle.clip_frames.specs.Reading.{HasOpen};
ghost use Rattle.clip_frames.specs.Texts.{text_of};

use crate::reading::read_frame;
use clip_gate::{Clip, FrameNote, Pass};
use decode_workers::draw_copies;
use obj_frames::{Header, Mesh, NoMemory, frame_text};
use std::alloc::Global;
use std::sync::Wait;

/// The mesh of a pass's frame, which is read level by level, each in a turn of its own: exactly the mesh of the frame's
/// active regions over the clip's terrain, whatever other passes do meanwhile. K is that of the clip. It makes no
/// entry, and fails where memory runs out.
pub fn draw_frame(
    rt: &impl Wait,
    alloc: Global,
    clip: &Clip,
    pass: &mut Pass,
    note: &FrameNote,
    k: u8,
) -> Result<Mesh, NoMemory>
    requires clip { pass.old.clip ≡ clip.now }
    requires frame { HasOpen pass.old (open_frame note.now) }
    requires size { IsSize k }
    ensures waited { HasWaited pass.old pass.new }
    ensures mesh { IfOk result (λ made. made ≡ mesh clip.now.land.terrain k note.now.actives) }
{
    let copies = read_frame(rt, alloc, clip, pass, note, k)?;
    draw_copies(alloc, &copies)
}

// The text of a mesh, as that of a frame.
fn print(alloc: Global, mesh: &Mesh, note: &FrameNote) -> Result<Vec<u8>, NoMemory>
    ensures { IfOk result (λ text. text.items ≡ text_of (open_frame note.now) mesh.now) }
{
    let header = Header {
        number: note.number,
        x: note.x,
        y: note.y,
        actives: note.actives,
    };
    frame_text(alloc, mesh, &header)
}

/// The text of a pass's frame as a Wavefront OBJ file, read in several turns: exactly the text of the frame as it was
/// begun. K is that of the clip. It makes no entry, and fails where memory runs out.
pub fn print_frame(
    rt: &impl Wait,
    alloc: Global,
    clip: &Clip,
    pass: &mut Pass,
    note: &FrameNote,
    k: u8,
) -> Result<Vec<u8>, NoMemory>
    requires clip { pass.old.clip ≡ clip.now }
    requires frame { HasOpen pass.old (open_frame note.now) }
    requires size { IsSize k }
    ensures waited { HasWaited pass.old pass.new }
    ensures text { IfOk result (λ text.
        text.items ≡ text_of (open_frame note.now) (mesh clip.now.land.terrain k note.now.actives)) }
{
    let mesh = draw_frame(rt, alloc, clip, pass, note, k)?;
    print(alloc, &mesh, note)
}
