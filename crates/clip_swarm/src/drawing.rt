//! The renderers.

ghost use Rattle.std.specs.Prelude.{◌≡◌, IfOk};
ghost use Rattle.plan_model.specs.Limits.{IsSize};
ghost use Rattle.plan_model.specs.declared.events.Work.TheVariants.{Free};
ghost use Rattle.mesh_model.specs.Mesh.{mesh};
ghost use Rattle.book_plan.specs.Notes.{open_frame};
ghost use Rattle.clip_gate.specs.Passes.{part_of};
ghost use Rattle.clip_gate.specs.Calls.{HasWaited};
ghost use Rattle.swarm_laws.specs.Shares.{begins_share};
ghost use Rattle.swarm_passes.specs.Frames.{printed};
ghost use Rattle.swarm_passes.specs.Drawing.{HasOpen, HasEnded, Renders};

use crate::frame::SwarmFrame;
use crate::passes::put;
use clip_book::Begun;
use clip_frames::draw_frame;
use clip_gate::{Clip, FrameNote, Pass};
use obj_frames::{Header, Mesh, NoMemory, frame_text};
use std::alloc::Global;
use std::sync::Wait;

// What is printed of a frame whose mesh this is.
fn print(alloc: Global, mesh: &Mesh, note: &FrameNote) -> Result<SwarmFrame, NoMemory>
    ensures { IfOk result (λ frame. frame ≡ printed (open_frame note.now) mesh.now) }
{
    let vertices = mesh.vertices().len() as u32;
    let triangles = mesh.triangles().len() as u32;
    let header = Header {
        number: note.number,
        x: note.x,
        y: note.y,
        actives: note.actives,
    };
    let bytes = frame_text(alloc, mesh, &header)?;
    Ok(SwarmFrame {
        number: note.number,
        bytes,
        vertices,
        triangles,
    })
}

// The frame of a pass is read, drawn and printed.
fn made(
    rt: &impl Wait,
    alloc: Global,
    clip: &Clip,
    pass: &mut Pass,
    note: &FrameNote,
    k: u8,
) -> Result<SwarmFrame, NoMemory>
    requires clip { pass.old.clip ≡ clip.now }
    requires frame { HasOpen pass.old (open_frame note.now) }
    requires size { IsSize k }
    ensures waited { HasWaited pass.old pass.new }
    ensures frame { IfOk result (λ frame.
        frame ≡ printed (open_frame note.now) (mesh clip.now.land.terrain k note.now.actives)) }
{
    let mesh = draw_frame(rt, alloc, clip, pass, note, k)?;
    print(alloc, &mesh, note)
}

// A pass ends the frame that it has.
fn end(rt: &impl Wait, clip: &Clip, pass: &mut Pass, note: &FrameNote)
    requires clip { pass.old.clip ≡ clip.now }
    requires frame { HasOpen pass.old (open_frame note.now) }
    ensures { HasEnded (open_frame note.now) pass.old pass.new }
{
    let _number = pass.number();
    let answer = clip.end(rt, pass);
    let _sound = pass.number();
    match answer {
        Ok(_) => {}
        Err(_) => unreachable!(),
    }
}

// A pass begins one frame, and makes and ends it, where one was begun. It tells whether the journal was full.
fn make_frame(
    rt: &impl Wait,
    alloc: Global,
    clip: &Clip,
    pass: &mut Pass,
    k: u8,
    frames: &mut Vec<SwarmFrame>,
) -> Result<bool, NoMemory>
    requires clip { pass.old.clip ≡ clip.now }
    requires size { IsSize k }
    requires same { k ≡ clip.now.size }
    requires free { part_of pass.old ≡ Free }
    ensures draws { IfOk result (λ full.
        Renders (begins_share 1) full pass.old pass.new frames.old.items frames.new.items) }
{
    let _number = pass.number();
    match clip.begin(rt, pass) {
        Ok(Begun::Frame { .. }) => {
            let note = match pass.frame() {
                Some(note) => note,
                None => unreachable!(),
            };
            let frame = made(rt, alloc, clip, pass, &note, k)?;
            end(rt, clip, pass, &note);
            put(frames, frame)?;
            Ok(false)
        }
        Ok(Begun::Held { .. }) => Ok(false),
        Ok(Begun::HasWork) => unreachable!(),
        Err(_) => Ok(true),
    }
}

// Makes so many beginnings, as long as the journal isn't full. It tells whether it was.
pub(crate) fn make_frames(
    rt: &impl Wait,
    alloc: Global,
    clip: &Clip,
    pass: &mut Pass,
    k: u8,
    begins: u32,
    frames: &mut Vec<SwarmFrame>,
) -> Result<bool, NoMemory>
    requires clip { pass.old.clip ≡ clip.now }
    requires size { IsSize k }
    requires same { k ≡ clip.now.size }
    requires free { part_of pass.old ≡ Free }
    ensures draws { IfOk result (λ full.
        Renders (begins_share begins) full pass.old pass.new frames.old.items frames.new.items) }
{
    for _made in 0..begins {
        if make_frame(rt, alloc, clip, pass, k, frames)? {
            return Ok(true);
        }
    }
    Ok(false)
}
