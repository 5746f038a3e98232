//! The events of a flight: each is done, and then its line is written.

ghost use Rattle.std.specs.Prelude.{◌≡◌, ℕ, ◌<◌, ◌≤◌, ◌^◌, List, IfOk, OnOk, IsSome, is_some, length};
ghost use Rattle.outer_shelf.specs.Counts.{Rose};
ghost use Rattle.outer_shelf.specs.Outside.{ShelfTold};
ghost use Rattle.plan_model.specs.Limits.{IsViewer};
ghost use Rattle.plan_model.specs.Rounds.{frame_pass, is_job};
ghost use Rattle.plan_model.specs.States.{frame_of, pass_at};
ghost use Rattle.plan_model.specs.Steps.{step};
ghost use Rattle.plan_model.specs.declared.events.Event.TheVariants.{Move, Claim, Finish, Publish, Begin, End};
ghost use Rattle.clip_script.specs.Texts.{log_line};
ghost use Rattle.clip_book.specs.Books.{Does, IsFilledOf};
ghost use Rattle.decode_workers.specs.Drawn.{IsFrameMesh};
ghost use Rattle.run_actions.specs.Runs.{CallsWithin, OnHalt, WriteEnds, leaves_nothing};
ghost use Rattle.clip_desk.specs.Desks.{Goes};
ghost use Rattle.clip_rounds.specs.Claims.{job_in};
ghost use Rattle.clip_rounds.specs.Parts.{Flew, one, place_of};
ghost use Rattle.clip_rounds.specs.Rounds.{IsClaimOf};

use crate::flight::{FRAME_PASS, Flight};
use clip_book::{
    Claimed, FilledJob, Job, told_of_begun, told_of_claim, told_of_given, told_of_published,
};
use clip_desk::{Means, event_line, print_whole, put_numbered};
use decode_workers::Filler;
use obj_frames::Mesh;
use outer_shelf::{Shelf, Sink};
use plan_model::{Answer, Event};
use run_actions::{Halt, write};
use std::alloc::Global;
use std::mem;
use std::thread::Threads;

// Writes the line of an event of a pass and its answer.
fn tell<K: Sink>(
    alloc: Global,
    pass: u8,
    event: Event,
    answer: Answer,
    out: &mut K,
) -> Result<(), Halt>
    ensures ends { WriteEnds (log_line pass event answer) result
        (K.told out.old).written (K.told out.new).written }
    ensures calls { CallsWithin 1 (K.told out.old).calls (K.told out.new).calls }
    ensures reason { OnHalt result ⊥ (Rose (K.told out.old).faults (K.told out.new).faults) }
    ensures faults_stay { (K.told out.old).faults ≤ (K.told out.new).faults }
{
    match event_line(alloc, pass, event, answer) {
        Ok(line) => write(out, line.as_slice()),
        Err(_) => Err(Halt::NoMemory),
    }
}

// The job that a claim gives, if it gives one.
fn job_in(claimed: Claimed) -> Option<Job>
    ensures { result ≡ job_in claimed }
{
    match claimed {
        Claimed::Job(job) => Some(job),
        _ => None,
    }
}

// Pass `pass` claims a piece: its job, where it is given one.
pub(crate) fn claim<K: Sink>(
    alloc: Global,
    flight: &mut Flight,
    pass: u8,
    out: &mut K,
) -> Result<Option<Job>, Halt>
    requires pass { pass < 16 }
    ensures flew { (s : ShelfTold) (name : List ℕ) → Flew leaves_nothing flight.old.book.land.terrain name
        (one pass Claim) result (place_of flight.old) (place_of flight.new) s s (K.told out.old) (K.told out.new) }
    ensures does { Does pass Claim (step flight.old.book.plan.state pass Claim).answer
        flight.old.book flight.new.book }
    ensures job { IfOk result (IsClaimOf flight.new.book pass) }
    ensures given { IfOk result (λ job. is_some job ≡ is_job (step flight.old.book.plan.state pass Claim).answer) }
{
    let claimed = flight.book.claim(pass);
    let answer = told_of_claim(&claimed);
    let job = job_in(claimed);
    tell(alloc, pass, Event::Claim, answer, out)?;
    Ok(job)
}

// Pass `pass` gives its job back.
pub(crate) fn give_back<K: Sink>(
    alloc: Global,
    flight: &mut Flight,
    pass: u8,
    job: FilledJob,
    out: &mut K,
) -> Result<(), Halt>
    requires pass { pass < 16 }
    requires job { IsFilledOf flight.old.book pass job }
    ensures flew { (s : ShelfTold) (name : List ℕ) → Flew leaves_nothing flight.old.book.land.terrain name
        (one pass Finish) result (place_of flight.old) (place_of flight.new) s s (K.told out.old) (K.told out.new) }
    ensures does { Does pass Finish (step flight.old.book.plan.state pass Finish).answer
        flight.old.book flight.new.book }
{
    let answer = told_of_given(flight.book.give_back(pass, job));
    match flight.tally.with_kept(answer) {
        Some(tally) => {
            flight.tally = tally;
            tell(alloc, pass, Event::Finish, answer, out)
        }
        None => Err(Halt::NoMemory),
    }
}

// A level is published.
pub(crate) fn publish<K: Sink>(
    alloc: Global,
    flight: &mut Flight,
    level: u8,
    out: &mut K,
) -> Result<(), Halt>
    requires level { level < length flight.old.book.plan.state.levels }
    ensures flew { (s : ShelfTold) (name : List ℕ) → Flew leaves_nothing flight.old.book.land.terrain name
        (one 0 (Publish level)) result (place_of flight.old) (place_of flight.new) s s
        (K.told out.old) (K.told out.new) }
    ensures does { Does 0 (Publish level) (step flight.old.book.plan.state 0 (Publish level)).answer
        flight.old.book flight.new.book }
{
    let answer = told_of_published(flight.book.publish(level));
    tell(alloc, 0, Event::Publish { level }, answer, out)
}

/// The viewer moves.
pub fn move_to<K: Sink>(
    alloc: Global,
    flight: &mut Flight,
    x: i32,
    y: i32,
    a: u32,
    out: &mut K,
) -> Result<(), Halt>
    requires viewer { IsViewer x y a }
    requires moves { flight.old.book.plan.moves < 2 ^ 40 }
    ensures flew { (s : ShelfTold) (name : List ℕ) → Flew leaves_nothing flight.old.book.land.terrain name
        (one 0 (Move x y a)) result (place_of flight.old) (place_of flight.new) s s
        (K.told out.old) (K.told out.new) }
    ensures goes { Goes 0 (Move x y a) flight.old.book flight.new.book }
{
    flight.book.move_to(x, y, a);
    tell(alloc, 0, Event::Move { x, y, a }, Answer::Moved, out)
}

/// The pass that draws begins a frame.
pub fn begin<K: Sink>(alloc: Global, flight: &mut Flight, out: &mut K) -> Result<(), Halt>
    requires begun { flight.old.book.plan.state.begun < 2 ^ 40 }
    ensures flew { (s : ShelfTold) (name : List ℕ) → Flew leaves_nothing flight.old.book.land.terrain name
        (one frame_pass Begin) result (place_of flight.old) (place_of flight.new) s s
        (K.told out.old) (K.told out.new) }
    ensures goes { Goes frame_pass Begin flight.old.book flight.new.book }
{
    let answer = told_of_begun(&flight.book.begin(FRAME_PASS));
    tell(alloc, FRAME_PASS, Event::Begin, answer, out)
}

// The frame of the pass that draws ends: its text is put, and then its line is written.
pub(crate) fn end<R: Threads + Sync, F: Filler, S: Shelf, K: Sink>(
    means: &Means<'_, R, F>,
    flight: &mut Flight,
    mesh: &Mesh,
    shelf: &mut S,
    out: &mut K,
) -> Result<(), Halt>
    requires frame { IsSome (frame_of (pass_at flight.old.book.plan.state frame_pass)) }
    requires mesh { IsFrameMesh flight.old.book frame_pass mesh.now }
    ensures flew { Flew S.leaves flight.old.book.land.terrain means.now.name.now
        (one frame_pass End) result (place_of flight.old) (place_of flight.new)
        (S.told shelf.old) (S.told shelf.new) (K.told out.old) (K.told out.new) }
    ensures goes { OnOk result (Goes frame_pass End flight.old.book flight.new.book) }
{
    let Some(note) = flight.book.frame_of(FRAME_PASS) else {
        unreachable!()
    };
    let text = mem::replace(&mut flight.text, Vec::new(means.alloc));
    let Ok(drawn) = print_whole(means.rt, means.alloc, text, mesh, FRAME_PASS, &note) else {
        return Err(Halt::NoMemory);
    };
    let Some(tally) = flight.tally.with_mesh(mesh, drawn.text.len()) else {
        return Err(Halt::NoMemory);
    };
    flight.tally = tally;
    let _ = flight.book.end(FRAME_PASS);
    let done = put_numbered(means.alloc, means.name, note.number, &drawn, shelf, out);
    flight.text = drawn.text;
    done
}
