//! The run of a course.

ghost use Rattle.std.specs.Prelude.{◌≡◌};
ghost use Rattle.run_actions.specs.Runs.{HadReason, Ran};
ghost use Rattle.clip_script.specs.Scripts.{fly_view};
ghost use Rattle.clip_flights.specs.Flights.{fly_actions};
ghost use Rattle.clip_runs.specs.Courses.{AreWorkers, IsCourseInRange, IsFlyInRange, course_actions, course_view};
ghost use Rattle.clip_runs.specs.Statuses.{IsComplete, IsRunStatus, ended_by};

use crate::play::play;
use crate::single::single_frame;
use crate::statuses::run_status;
use clip_desk::Means;
use clip_flights::{demo, fly};
use clip_script::{FlyScript, PlayScript};
use decode_workers::Filler;
use outer_shelf::{Shelf, Sink};
use run_actions::Halt;
use std::alloc::Global;
use std::thread::Threads;

/// What is to be done over any terrain.
#[derive(Clone, Copy)]
pub enum Course<'a> {
    /// One frame of whole windows.
    Frame {
        /// The size of the grids: 2^k − 1 vertices a side; from 4 to 8.
        k: u8,
        /// The viewer's column, in samples, −4194304 to 4194304.
        x: i32,
        /// The viewer's row, likewise.
        y: i32,
    },
    /// The steps of a play script.
    Play(&'a PlayScript),
    /// A flight: its jobs are filled while its frames are drawn.
    Fly {
        /// The lines of the flight.
        script: &'a FlyScript,
        /// How many passes work, from 1 to 15.
        workers: u8,
    },
    /// A flight with two workers, of which one line tells with a seed.
    Demo {
        /// The seed.
        seed: u64,
        /// The lines of the flight.
        script: &'a FlyScript,
    },
}

// Flies a script.
fn fly_course<R: Threads + Sync, F: Filler + Sync, S: Shelf, K: Sink>(
    means: &Means<'_, R, F>,
    script: &FlyScript,
    workers: u8,
    shelf: &mut S,
    out: &mut K,
) -> Result<(), Halt>
    requires script { IsFlyInRange (F.land means.now.filler.now).levels (fly_view script.now) }
    requires workers { AreWorkers workers }
    ensures ran { Ran S.leaves 0
        (fly_actions (F.land means.now.filler.now).terrain script.now.k script.now.levels workers
        script.now.lines.items means.now.name.now) result
        (S.told shelf.old) (S.told shelf.new) (K.told out.old) (K.told out.new) }
    ensures reason { HadReason result (S.told shelf.old) (S.told shelf.new) (K.told out.old) (K.told out.new) }
{
    fly(means, script, workers, shelf, out)?;
    Ok(())
}

// Does a course.
fn do_course<R: Threads + Sync, F: Filler + Sync, S: Shelf, K: Sink>(
    means: &Means<'_, R, F>,
    course: &Course<'_>,
    shelf: &mut S,
    out: &mut K,
) -> Result<(), Halt>
    requires in_range { IsCourseInRange (F.land means.now.filler.now).levels (course_view course.now) }
    ensures ran { Ran S.leaves 0
        (course_actions (course_view course.now) (F.land means.now.filler.now) means.now.name.now) result
        (S.told shelf.old) (S.told shelf.new) (K.told out.old) (K.told out.new) }
    ensures reason { HadReason result (S.told shelf.old) (S.told shelf.new) (K.told out.old) (K.told out.new) }
{
    match *course {
        Course::Frame { k, x, y } => single_frame(means, k, x, y, shelf, out),
        Course::Play(script) => play(means, script, shelf, out),
        Course::Fly { script, workers } => fly_course(means, script, workers, shelf, out),
        Course::Demo { seed, script } => demo(means, seed, script, out),
    }
}

/// Runs a course over the terrain that a filler's shape names, and answers a status.
///
/// Each event is done, then its file is put, then its line is written, before the next event. Frame number f of a play
/// and of a flight is put as `NAME-f.obj`, and the one frame of a [`Course::Frame`] under the name itself. A
/// [`Course::Demo`] puts nothing and writes one line. A script's levels are those of the shape.
///
/// | Status | When |
/// |---|---|
/// | 0 | all was done |
/// | 3 | a call of the shelf failed; nothing more is written |
/// | 4 | a call of the sink failed; nothing more is written |
/// | 5 | there was no memory; nothing more is written |
pub fn run_course<R: Threads + Sync, F: Filler + Sync, S: Shelf, K: Sink>(
    rt: &R,
    alloc: Global,
    filler: &F,
    course: &Course<'_>,
    name: &str,
    shelf: &mut S,
    out: &mut K,
) -> u8
    requires in_range { IsCourseInRange (F.land filler.now).levels (course_view course.now) }
    ensures status { IsRunStatus result }

    // What was done of the course's actions, by how the run with that status ended: all of them, or a front of them and
    // what the refused one left. No call is made that they don't have.
    ensures ran { Ran S.leaves 0
        (course_actions (course_view course.now) (F.land filler.now) name.now) (ended_by result)
        (S.told shelf.old) (S.told shelf.new) (K.told out.old) (K.told out.new) }

    // The causes of a status hold for every shelf and sink.
    ensures reason { HadReason (ended_by result)
        (S.told shelf.old) (S.told shelf.new) (K.told out.old) (K.told out.new) }

    // Where no count of faults rose, all was done or memory was wanting.
    ensures complete { IsComplete result
        (S.told shelf.old) (S.told shelf.new) (K.told out.old) (K.told out.new) }
{
    let means = Means {
        rt,
        alloc,
        filler,
        name,
    };
    run_status(do_course(&means, course, shelf, out))
}
