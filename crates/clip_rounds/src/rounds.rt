//! A round of a flight.

ghost use Rattle.std.specs.Prelude.{◌≡◌, ◌<◌, ◌≤◌, ℕ, List, IfOk, IsTrue, OnOk, is_some, length};
ghost use Rattle.std.specs.List.{range_with_len};
ghost use Rattle.outer_shelf.specs.Outside.{ShelfTold};
ghost use Rattle.plan_model.specs.Rounds.{claims, ending, finishes, frame_pass, publish_of, publishes, round};
ghost use Rattle.plan_model.specs.States.{job_of, pass_at};
ghost use Rattle.plan_model.specs.Steps.{step};
ghost use Rattle.plan_model.specs.declared.events.Event.TheVariants.{Finish};
ghost use Rattle.clip_book.specs.Books.{Does};
ghost use Rattle.decode_rounds.specs.Homes.{GoesBack};
ghost use Rattle.run_actions.specs.Runs.{leaves_nothing};
ghost use Rattle.clip_desk.specs.Desks.{Stays};
ghost use Rattle.clip_rounds.specs.Parts.{Flew, one, place_of};
ghost use Rattle.clip_rounds.specs.Rounds.{AreClaims, AreHomeward, HaveNoJobs, IsDrawn, IsFill};

use crate::events::{claim, end, give_back, publish};
use crate::flight::Flight;
use crate::work::{Worked, work};
use clip_desk::Means;
use decode_rounds::{Done, Task};
use decode_workers::Filler;
use obj_frames::Mesh;
use outer_shelf::{Shelf, Sink};
use plan_histories::others_keep_parts;
use plan_holds::steps_go_on;
use run_actions::Halt;
use std::alloc::Global;
use std::thread::Threads;

// The passes below a number claim in turn, up to the first that is given no job. Their jobs, as tasks.
fn claim_jobs<K: Sink>(
    alloc: Global,
    flight: &mut Flight,
    workers: u8,
    out: &mut K,
) -> Result<Vec<Task>, Halt>
    requires workers { workers ≤ 15 }
    requires none { HaveNoJobs flight.old.book 0 }
    ensures flew { (s : ShelfTold) (name : List ℕ) → Flew leaves_nothing flight.old.book.land.terrain name
        (λ run. claims run (range_with_len 0 workers)) result (place_of flight.old) (place_of flight.new) s s
        (K.told out.old) (K.told out.new) }
    ensures jobs { IfOk result (λ tasks. AreClaims flight.new.book tasks.items) }
    ensures stays { Stays flight.old.book flight.new.book }
{
    others_keep_parts();
    steps_go_on();
    let mut tasks = Vec::new(alloc);
    for pass in 0..workers {
        let claimed = claim(alloc, flight, pass, out)?;
        match claimed {
            Some(job) => match tasks.push(Task::Fill { pass, job }) {
                Ok(()) => {}
                Err(_) => return Err(Halt::NoMemory),
            },
            None => return Ok(tasks),
        }
    }
    Ok(tasks)
}

// The job of a pass goes back.
fn give_one<K: Sink>(
    alloc: Global,
    flight: &mut Flight,
    pass: u8,
    done: Done,
    out: &mut K,
) -> Result<(), Halt>
    requires pass { pass < 16 }
    requires fill { IsFill done }
    requires back { GoesBack flight.old.book pass done }
    ensures flew { (s : ShelfTold) (name : List ℕ) → Flew leaves_nothing flight.old.book.land.terrain name
        (one pass Finish) result (place_of flight.old) (place_of flight.new) s s (K.told out.old) (K.told out.new) }
    ensures does { Does pass Finish (step flight.old.book.plan.state pass Finish).answer
        flight.old.book flight.new.book }
    ensures had { IsTrue (is_some (job_of (pass_at flight.old.book.plan.state pass))) }
{
    match done {
        Done::Drawn { .. } => unreachable!(),
        Done::Filled { job, .. } => give_back(alloc, flight, pass, job, out),
    }
}

// Each pass that has a job gives it back, in the order of the passes.
fn give_jobs<K: Sink>(
    alloc: Global,
    flight: &mut Flight,
    jobs: Vec<Done>,
    out: &mut K,
) -> Result<(), Halt>
    requires jobs { AreHomeward flight.old.book 0 jobs.items }
    requires many { length flight.old.book.plan.state.passes ≡ 16 }
    ensures flew { (s : ShelfTold) (name : List ℕ) → Flew leaves_nothing flight.old.book.land.terrain name
        finishes result (place_of flight.old) (place_of flight.new) s s (K.told out.old) (K.told out.new) }
    ensures frame { pass_at flight.new.book.plan.state frame_pass ≡ pass_at flight.old.book.plan.state frame_pass }
    ensures stays { Stays flight.old.book flight.new.book }
{
    others_keep_parts();
    steps_go_on();
    let mut pass = 0u8;
    for done in jobs {
        give_one(alloc, flight, pass, done, out)?;
        pass += 1;
    }
    Ok(())
}

// The frame ends, where there is one.
fn end_frame<R: Threads + Sync, F: Filler, S: Shelf, K: Sink>(
    means: &Means<'_, R, F>,
    flight: &mut Flight,
    mesh: Option<Mesh>,
    shelf: &mut S,
    out: &mut K,
) -> Result<(), Halt>
    requires mesh { IsDrawn flight.old.book mesh }
    ensures flew { Flew S.leaves flight.old.book.land.terrain means.now.name.now
        ending result (place_of flight.old) (place_of flight.new)
        (S.told shelf.old) (S.told shelf.new) (K.told out.old) (K.told out.new) }
    ensures stays { OnOk result (Stays flight.old.book flight.new.book) }
{
    steps_go_on();
    match mesh {
        Some(mesh) => end(means, flight, &mesh, shelf, out),
        None => Ok(()),
    }
}

// A level is published, where it is ripe.
fn publish_if_ripe<K: Sink>(
    alloc: Global,
    flight: &mut Flight,
    level: u8,
    out: &mut K,
) -> Result<(), Halt>
    requires level { level < length flight.old.book.plan.state.levels }
    ensures flew { (s : ShelfTold) (name : List ℕ) → Flew leaves_nothing flight.old.book.land.terrain name
        (λ run. publish_of run level) result (place_of flight.old) (place_of flight.new) s s
        (K.told out.old) (K.told out.new) }
    ensures stays { Stays flight.old.book flight.new.book }
{
    steps_go_on();
    if flight.book.is_ripe(level) {
        publish(alloc, flight, level, out)
    } else {
        Ok(())
    }
}

// Each level that is ripe is published, from the coarsest.
fn publish_ripe<K: Sink>(alloc: Global, flight: &mut Flight, out: &mut K) -> Result<(), Halt>
    ensures flew { (s : ShelfTold) (name : List ℕ) → Flew leaves_nothing flight.old.book.land.terrain name
        publishes result (place_of flight.old) (place_of flight.new) s s (K.told out.old) (K.told out.new) }
    ensures stays { Stays flight.old.book flight.new.book }
{
    let levels = flight.book.levels();
    for level in (0..levels).rev() {
        publish_if_ripe(alloc, flight, level, out)?;
    }
    Ok(())
}

// What has come of a round's tasks goes into the book.
fn take_home<R: Threads + Sync, F: Filler, S: Shelf, K: Sink>(
    means: &Means<'_, R, F>,
    flight: &mut Flight,
    worked: Worked,
    shelf: &mut S,
    out: &mut K,
) -> Result<(), Halt>
    requires jobs { AreHomeward flight.old.book 0 worked.jobs.items }
    requires mesh { IsDrawn flight.old.book worked.mesh }
    requires many { length flight.old.book.plan.state.passes ≡ 16 }
    ensures flew { Flew S.leaves flight.old.book.land.terrain means.now.name.now
        (λ run. publishes (ending (finishes run))) result (place_of flight.old) (place_of flight.new)
        (S.told shelf.old) (S.told shelf.new) (K.told out.old) (K.told out.new) }
    ensures stays { OnOk result (Stays flight.old.book flight.new.book) }
{
    give_jobs(means.alloc, flight, worked.jobs, out)?;
    end_frame(means, flight, worked.mesh, shelf, out)?;
    publish_ripe(means.alloc, flight, out)
}

/// One round with so many workers, at most 15: the passes below that number claim, what they are given is filled while
/// the open frame is drawn, the jobs go back, the frame ends, and what is ripe is published. Where memory is wanting
/// for the work, nothing more is written.
pub fn fly_round<R: Threads + Sync, F: Filler + Sync, S: Shelf, K: Sink>(
    means: &Means<'_, R, F>,
    flight: &mut Flight,
    workers: u8,
    shelf: &mut S,
    out: &mut K,
) -> Result<(), Halt>
    requires land { F.land means.now.filler.now ≡ flight.old.book.land }
    requires workers { workers ≤ 15 }
    requires none { HaveNoJobs flight.old.book 0 }
    requires many { length flight.old.book.plan.state.passes ≡ 16 }
    ensures flew { Flew S.leaves flight.old.book.land.terrain means.now.name.now
        (round workers) result (place_of flight.old) (place_of flight.new)
        (S.told shelf.old) (S.told shelf.new) (K.told out.old) (K.told out.new) }
    ensures stays { OnOk result (Stays flight.old.book flight.new.book) }
{
    let tasks = claim_jobs(means.alloc, flight, workers, out)?;
    match work(means, &flight.book, tasks) {
        Ok(worked) => take_home(means, flight, worked, shelf, out),
        Err(_) => Err(Halt::NoMemory),
    }
}
