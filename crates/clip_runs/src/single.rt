//! One frame of whole windows, from a book that is filled for it.

ghost use Rattle.std.specs.Prelude.{◌≡◌, ◌<◌, ◌≤◌, ◌^◌, IfOk, IsTrue};
ghost use Rattle.plan_model.specs.Limits.{IsSize, IsViewed};
ghost use Rattle.plan_model.specs.Rounds.{is_settled};
ghost use Rattle.plan_holds.specs.Kept.{HasFrame};
ghost use Rattle.plan_flights.specs.Flights.{IsAtRest};
ghost use Rattle.book_plan.specs.Notes.{open_frame};
ghost use Rattle.run_actions.specs.Runs.{HadReason, Ran};
ghost use Rattle.clip_runs.specs.Settles.{IsFilledFor, whole_frame};
ghost use Rattle.clip_runs.specs.WholeFrame.{frame_actions};

use crate::settling::settle;
use clip_book::FrameNote;
use clip_desk::{Desk, Means, NoMemory, draw_alone, put_frame};
use decode_workers::Filler;
use outer_shelf::{Shelf, Sink};
use plan_flights::{flights_end_at_rest, laws_below};
use plan_holds::steps_go_on;
use plan_model::Event;
use run_actions::Halt;
use std::alloc::Global;
use std::thread::Threads;

// A book with the windows round a viewer filled.
fn fill_whole<F: Filler>(alloc: Global, filler: &F, k: u8, x: i32, y: i32) -> Result<Desk, NoMemory>
    requires size { IsSize k }
    requires column { IsViewed x }
    requires row { IsViewed y }
    ensures filled { IfOk result (IsFilledFor k x y (F.land filler.now)) }
{
    flights_end_at_rest();
    steps_go_on();
    let shape = filler.shape();
    let _ = shape.levels();
    let mut desk = Desk::start(alloc, shape, k)?;
    let _ = desk.take(filler, 0, Event::Move { x, y, a: 0 });
    settle(filler, &mut desk);
    Ok(desk)
}

// Begins the frame of a filled book.
fn begin_whole<F: Filler>(filler: &F, desk: &mut Desk) -> FrameNote
    requires land { F.land filler.now ≡ desk.old.land }
    requires rest { IsAtRest desk.old.plan.state }
    requires settled { IsTrue (is_settled desk.old.plan.state) }

    // It stands low, and no frame was begun yet.
    requires low { desk.old.plan.state.altitude ≡ 0 }
    requires first { desk.old.plan.state.begun ≡ 0 }
    requires moves { desk.old.plan.moves < 2 ^ 40 }

    // The frame is open, and has every level whole.
    ensures frame { HasFrame desk.new.plan.state 0 (open_frame result) }
    ensures whole { open_frame result ≡ whole_frame desk.old.plan.state }

    // The rest of the book stays.
    ensures land { desk.new.land ≡ desk.old.land }
    ensures size { desk.new.plan.state.k ≡ desk.old.plan.state.k }
    ensures moves { desk.new.plan.moves ≡ desk.old.plan.moves }
    ensures one { desk.new.plan.state.begun ≤ 1 }
{
    laws_below();
    steps_go_on();
    let _ = desk.take(filler, 0, Event::Begin);
    match desk.book().frame_of(0) {
        Some(note) => note,
        None => unreachable!(),
    }
}

// Draws frame 0 of the windows round a viewer, all of them whole, puts it and writes its line.
pub(crate) fn single_frame<R: Threads + Sync, F: Filler, S: Shelf, K: Sink>(
    means: &Means<'_, R, F>,
    k: u8,
    x: i32,
    y: i32,
    shelf: &mut S,
    out: &mut K,
) -> Result<(), Halt>
    requires size { IsSize k }
    requires column { IsViewed x }
    requires row { IsViewed y }
    ensures ran { Ran S.leaves 0
        (frame_actions k (F.land means.now.filler.now).levels x y means.now.name.now
        (F.land means.now.filler.now).terrain) result
        (S.told shelf.old) (S.told shelf.new) (K.told out.old) (K.told out.new) }
    ensures reason { HadReason result (S.told shelf.old) (S.told shelf.new) (K.told out.old) (K.told out.new) }
{
    match fill_whole(means.alloc, means.filler, k, x, y) {
        Ok(mut desk) => {
            let note = begin_whole(means.filler, &mut desk);
            match draw_alone(means.rt, means.alloc, desk.book(), 0, &note) {
                Ok(drawn) => {
                    let _ = desk.take(means.filler, 0, Event::End);
                    put_frame(shelf, out, means.name, &drawn)
                }
                Err(_) => Err(Halt::NoMemory),
            }
        }
        Err(_) => Err(Halt::NoMemory),
    }
}
