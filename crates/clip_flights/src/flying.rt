//! A flight from its first line to its last.

ghost use Rattle.std.specs.Prelude.{◌≡◌, ◌+◌, ◌<◌, ◌≤◌, ◌^◌, All, IfOk, OnOk, length};
ghost use Rattle.plan_model.specs.Rounds.{fly_line};
ghost use Rattle.plan_model.specs.declared.events.FlyLine.TheVariants.{Frame};
ghost use Rattle.plan_flights.specs.Flights.{IsAtRest};
ghost use Rattle.clip_script.specs.Ranges.{AreSizes, IsFlown};
ghost use Rattle.run_actions.specs.Runs.{HadReason, Ran};
ghost use Rattle.clip_flights.specs.Flights.{flight_tally, fly_actions};
ghost use Rattle.clip_rounds.specs.Parts.{Flew, place_of};
ghost use Rattle.clip_flights.specs.Lines.{GoesOn, lines_of};

use crate::settling::settle;
use clip_book::Book;
use clip_desk::Means;
use clip_rounds::{Flight, Tally, begin, fly_round, move_to};
use clip_script::{FlyLine, FlyScript};
use decode_workers::Filler;
use outer_shelf::{Shelf, Sink};
use plan_flights::{flights_end_at_rest, lines_keep_rest};
use plan_histories::others_keep_parts;
use plan_holds::steps_go_on;
use run_actions::Halt;
use std::thread::Threads;

// A frame is begun, and drawn in the round after it.
fn fly_frame<R: Threads + Sync, F: Filler + Sync, S: Shelf, K: Sink>(
    means: &Means<'_, R, F>,
    flight: &mut Flight,
    workers: u8,
    shelf: &mut S,
    out: &mut K,
) -> Result<(), Halt>
    requires land { F.land means.now.filler.now ≡ flight.old.book.land }
    requires workers { workers ≤ 15 }
    requires rest { IsAtRest flight.old.book.plan.state }
    requires begun { flight.old.book.plan.state.begun < 2 ^ 40 }
    ensures flew { Flew S.leaves flight.old.book.land.terrain means.now.name.now
        (λ run. fly_line workers run Frame) result (place_of flight.old) (place_of flight.new)
        (S.told shelf.old) (S.told shelf.new) (K.told out.old) (K.told out.new) }
    ensures goes_on { OnOk result (GoesOn flight.old.book flight.new.book) }
{
    others_keep_parts();
    steps_go_on();
    begin(means.alloc, flight, out)?;
    fly_round(means, flight, workers, shelf, out)
}

// Does a line of a flight.
fn take_line<R: Threads + Sync, F: Filler + Sync, S: Shelf, K: Sink>(
    means: &Means<'_, R, F>,
    flight: &mut Flight,
    workers: u8,
    line: FlyLine,
    shelf: &mut S,
    out: &mut K,
) -> Result<(), Halt>
    requires land { F.land means.now.filler.now ≡ flight.old.book.land }
    requires some { 1 ≤ workers }
    requires workers { workers ≤ 15 }

    // The line can be flown from here.
    requires line { IsFlown line }
    requires rest { IsAtRest flight.old.book.plan.state }
    requires moves { flight.old.book.plan.moves < 2 ^ 40 }
    requires begun { flight.old.book.plan.state.begun < 2 ^ 40 }

    // It puts and writes what a play of its events does, and the next line goes on.
    ensures flew { Flew S.leaves flight.old.book.land.terrain means.now.name.now
        (λ run. fly_line workers run line) result (place_of flight.old) (place_of flight.new)
        (S.told shelf.old) (S.told shelf.new) (K.told out.old) (K.told out.new) }
    ensures goes_on { OnOk result (GoesOn flight.old.book flight.new.book) }
{
    steps_go_on();
    match line {
        FlyLine::Move { x, y, a } => move_to(means.alloc, flight, x, y, a, out),
        FlyLine::Frame => fly_frame(means, flight, workers, shelf, out),
        FlyLine::Settle => settle(means, flight, workers, shelf, out),
    }
}

// Does lines, one after another.
fn take_lines<R: Threads + Sync, F: Filler + Sync, S: Shelf, K: Sink>(
    means: &Means<'_, R, F>,
    flight: &mut Flight,
    workers: u8,
    lines: &[FlyLine],
    shelf: &mut S,
    out: &mut K,
) -> Result<(), Halt>
    requires land { F.land means.now.filler.now ≡ flight.old.book.land }
    requires some { 1 ≤ workers }
    requires workers { workers ≤ 15 }

    // The lines can be flown, and the book is at rest, at its start.
    requires lines { All IsFlown lines.now }
    requires few { length lines.now ≤ 1048577 }
    requires rest { IsAtRest flight.old.book.plan.state }
    requires moves { flight.old.book.plan.moves ≡ 0 }
    requires begun { flight.old.book.plan.state.begun ≡ 0 }

    // They put and write what a play of their events does.
    ensures flew { Flew S.leaves flight.old.book.land.terrain means.now.name.now
        (lines_of workers lines.now) result (place_of flight.old) (place_of flight.new)
        (S.told shelf.old) (S.told shelf.new) (K.told out.old) (K.told out.new) }
{
    lines_keep_rest();
    for line in lines {
        take_line(means, flight, workers, *line, shelf, out)?;
    }
    Ok(())
}

/// Flies a script with so many workers, 1 to 15, over the terrain of a filler. Its numbers, where all was done.
pub fn fly<R: Threads + Sync, F: Filler + Sync, S: Shelf, K: Sink>(
    means: &Means<'_, R, F>,
    script: &FlyScript,
    workers: u8,
    shelf: &mut S,
    out: &mut K,
) -> Result<Tally, Halt>
    requires some { 1 ≤ workers }
    requires workers { workers ≤ 15 }

    // The script is one for the terrain of the filler.
    requires sizes { AreSizes script.now.k script.now.levels }
    requires lines { All IsFlown script.now.lines.items }
    requires few { length script.now.lines.items ≤ 1048577 }
    requires levels { script.now.levels ≡ (F.land means.now.filler.now).levels }

    // It puts and writes what a play of its events does, or a front of that for a reason.
    ensures ran { Ran S.leaves 0
        (fly_actions (F.land means.now.filler.now).terrain script.now.k script.now.levels workers
        script.now.lines.items means.now.name.now) result
        (S.told shelf.old) (S.told shelf.new) (K.told out.old) (K.told out.new) }
    ensures reason { HadReason result (S.told shelf.old) (S.told shelf.new) (K.told out.old) (K.told out.new) }

    // Its numbers are those of its frames and jobs.
    ensures tally { IfOk result (λ tally. tally
        ≡ flight_tally (F.land means.now.filler.now).terrain script.now.k script.now.levels workers
        script.now.lines.items) }
{
    flights_end_at_rest();
    let Ok(book) = Book::start(means.alloc, means.filler.shape(), script.k) else {
        return Err(Halt::NoMemory);
    };
    let mut flight = Flight {
        book,
        tally: Tally::none(),
        text: Vec::new(means.alloc),
    };
    let lines = script.lines.as_slice();
    take_lines(means, &mut flight, workers, lines, shelf, out)?;
    Ok(flight.tally)
}
