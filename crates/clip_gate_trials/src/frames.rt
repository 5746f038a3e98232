//! Frames of a pass: begun, read level by level, drawn from copies and printed.

ghost use Rattle.std.specs.Prelude.{◌≡◌, IfSome};
ghost use Rattle.plan_model.specs.Limits.{IsSize};
ghost use Rattle.book_plan.specs.Notes.{open_frame};
ghost use Rattle.clip_frames.specs.Reading.{HasOpen};

use clip_book::{Begun, Ended};
use clip_frames::{print_frame, read_frame};
use clip_gate::{Clip, FrameNote, Pass};
use grid_frames::grid_mesh;
use height_pyramid::Grid;
use obj_frames::{Header, frame_text};
use std::alloc::Global;
use std::sync::Wait;

// A frame that was begun and drawn, and its text.
#[derive(Drop)]
pub(crate) struct Printed {
    pub(crate) note: FrameNote,
    pub(crate) text: Vec<u8>,
}

// A pass, given back by its thread, with the frames that it printed.
#[derive(Drop)]
pub(crate) struct Done {
    pub(crate) pass: Pass,
    pub(crate) frames: Vec<Printed>,
}

// A pass begins a frame, where it can.
pub(crate) fn begin(rt: &impl Wait, clip: &Clip, pass: &mut Pass) -> Option<FrameNote>
    requires { pass.old.clip ≡ clip.now }
    ensures clip { pass.new.clip ≡ pass.old.clip }
    ensures frame { IfSome result (λ note. HasOpen pass.new (open_frame note)) }
{
    match clip.begin(rt, pass) {
        Ok(Begun::Frame { .. }) => pass.frame(),
        _ => None,
    }
}

// Whether the frame that a pass ends has a number.
pub(crate) fn ends(rt: &impl Wait, clip: &Clip, pass: &mut Pass, was: u64) -> bool
    requires { pass.old.clip ≡ clip.now }
    ensures { pass.new.clip ≡ pass.old.clip }
{
    match clip.end(rt, pass) {
        Ok(Ended::Closed { number }) => number == was,
        _ => false,
    }
}

// A pass begins a frame, reads it level by level, draws it, prints it and ends it.
fn frame_of(rt: &impl Wait, alloc: Global, clip: &Clip, pass: &mut Pass, k: u8) -> Option<Printed>
    requires clip { pass.old.clip ≡ clip.now }
    requires size { IsSize k }
    ensures { pass.new.clip ≡ pass.old.clip }
{
    let note = begin(rt, clip, pass)?;
    let text = print_frame(rt, alloc, clip, pass, &note, k).ok()?;
    if !ends(rt, clip, pass, note.number) {
        return None;
    }
    Some(Printed { note, text })
}

// A frame is drawn and put to the others, where another pass doesn't hold a tile of it: whether it was.
pub(crate) fn draw(
    rt: &impl Wait,
    alloc: Global,
    clip: &Clip,
    done: &mut Done,
    k: u8,
) -> Option<bool>
    requires clip { done.old.pass.clip ≡ clip.now }
    requires size { IsSize k }
    ensures { done.new.pass.clip ≡ done.old.pass.clip }
{
    let Some(printed) = frame_of(rt, alloc, clip, &mut done.pass, k) else {
        return Some(false);
    };
    done.frames.push(printed).ok()?;
    Some(true)
}

// Whether the text of a frame is that of its regions over the terrain.
pub(crate) fn is_right(alloc: Global, printed: &Printed, grid: &Grid, k: u8) -> bool
    requires { IsSize k }
{
    let note = &printed.note;
    let Ok(mesh) = grid_mesh(alloc, k, &note.actives, grid) else {
        return false;
    };
    let header = Header {
        number: note.number,
        x: note.x,
        y: note.y,
        actives: note.actives,
    };
    match frame_text(alloc, &mesh, &header) {
        Ok(text) => text.as_slice() == printed.text.as_slice(),
        Err(_) => false,
    }
}

// Whether level 0 of the frame of a pass has so many heights, all 0.
pub(crate) fn has_zeros(
    rt: &impl Wait,
    alloc: Global,
    clip: &Clip,
    pass: &mut Pass,
    note: &FrameNote,
    count: usize,
) -> bool
    requires clip { pass.old.clip ≡ clip.now }
    requires frame { HasOpen pass.old (open_frame note.now) }
    ensures { pass.new.clip ≡ pass.old.clip }
{
    let Ok(mut copies) = read_frame(rt, alloc, clip, pass, note, 5) else {
        return false;
    };
    if note.actives.levels() == 0 {
        return false;
    }
    let heights = copies.level_mut(0);
    heights.len() == count && heights.iter().all(|height| *height == 0)
}
