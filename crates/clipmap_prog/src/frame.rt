//! The command `frame`.
ghost use Rattle.std.specs.Prelude.{◌≡◌, ◌⊎◌, IfOk};
ghost use Rattle.terrain_store.specs.Stores.{land_of};
ghost use Rattle.clipmap_words.specs.Frame.{IsFrameInRange, frame_view};
ghost use Rattle.clipmap_prog.specs.Frame.{drawn, frame_outcome};
ghost use Rattle.clipmap_prog.specs.Promise.{Runs};
ghost use Rattle.run_actions.specs.Runs.{HadReason, Ran};
ghost use Rattle.clipmap_prog.specs.Stores.{ByVerdict};

use crate::grounds::read_land;
use crate::output::{ended, write_fault};
use crate::reading::Stop;
use clip_runs::{Course, ended_by, run_course};
use clipmap_words::FrameWords;
use outer_shelf::{Shelf, Sink};
use run_actions::Halt;
use std::alloc::Global;
use std::thread::Threads;
use terrain_store::Store;

// Draws a frame of whole windows over a store.
fn draw<R: Threads + Sync, S: Shelf, K: Sink>(
    rt: &R,
    alloc: Global,
    store: &Store,
    frame: &FrameWords<'_>,
    shelf: &mut S,
    out: &mut K,
) -> Result<(), Halt>
    requires in_range { IsFrameInRange (frame_view frame.now) }
    ensures ran { Ran S.leaves 0 (drawn (frame_view frame.now) (land_of store.now)) result
        (S.told shelf.old) (S.told shelf.new) (K.told out.old) (K.told out.new) }
    ensures reason { HadReason result (S.told shelf.old) (S.told shelf.new) (K.told out.old) (K.told out.new) }
{
    let FrameWords {
        k,
        x,
        y,
        out: name,
        ..
    } = *frame;
    let course = Course::Frame { k, x, y };
    ended_by(run_course(rt, alloc, store, &course, name, shelf, out))
}

// Runs a `frame`. `Ok` is the status: 0 where it is done, and 2 where it is refused and the line of its
// fault is written.
pub(crate) fn run_frame<R: Threads + Sync, S: Shelf, K: Sink>(
    rt: &R,
    alloc: Global,
    frame: &FrameWords<'_>,
    shelf: &mut S,
    out: &mut K,
) -> Result<u8, Halt>
    requires in_range { IsFrameInRange (frame_view frame.now) }
    ensures runs { ByVerdict (frame_view frame.now).inputs (S.told shelf.old).files
        (λ verdict. Runs S.leaves (frame_outcome verdict (frame_view frame.now)) result
        (S.told shelf.old) (S.told shelf.new) (K.told out.old) (K.told out.new)) }
    ensures status { IfOk result (λ status. (status ≡ 0) ⊎ (status ≡ 2)) }
    ensures reason { HadReason result (S.told shelf.old) (S.told shelf.new) (K.told out.old) (K.told out.new) }
{
    match read_land(rt, alloc, shelf, frame.inputs, frame.levels) {
        Ok(store) => ended(0, draw(rt, alloc, &store, frame, shelf, out)),
        Err(Stop::Refused(fault)) => ended(2, write_fault(alloc, out, fault)),
        Err(Stop::Halted(halt)) => Err(halt),
    }
}
