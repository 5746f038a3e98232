//! The work of a round: jobs are filled, and the frame is drawn, at once.

ghost use Rattle.std.specs.Prelude.{◌≡◌, IfOk, IsSome, None};
ghost use Rattle.plan_model.specs.Rounds.{frame_pass};
ghost use Rattle.plan_model.specs.States.{frame_of, pass_at};
ghost use Rattle.clip_rounds.specs.Rounds.{AreClaims, AreHomeward, IsDrawn};

use crate::flight::FRAME_PASS;
use clip_book::Book;
use clip_desk::Means;
use decode_rounds::{Done, Quiet, Task, round};
use decode_workers::{Filler, filled_jobs_go_back};
use obj_frames::Mesh;
use run_actions::Halt;
use std::thread::Threads;

// What the tasks of a round have come to.
#[derive(Drop)]
pub(crate) struct Worked {
    // The jobs, filled, in the order of their passes.
    pub(crate) jobs: Vec<Done>,
    // The mesh of the frame, where there is one.
    pub(crate) mesh: Option<Mesh>,
}

// Fills jobs where no frame is open.
fn fill_alone<R: Threads + Sync, F: Filler + Sync>(
    means: &Means<'_, R, F>,
    book: &Book,
    tasks: Vec<Task>,
) -> Result<Worked, Halt>
    requires land { F.land means.now.filler.now ≡ book.now.land }
    requires claims { AreClaims book.now tasks.items }
    requires none { frame_of (pass_at book.now.plan.state frame_pass) ≡ None }
    ensures jobs { IfOk result (λ worked. AreHomeward book.now 0 worked.jobs.items) }
    ensures mesh { IfOk result (λ worked. IsDrawn book.now worked.mesh) }
{
    filled_jobs_go_back();
    match round(means.rt, means.alloc, book, means.filler, tasks, &Quiet) {
        Ok(jobs) => Ok(Worked { jobs, mesh: None }),
        Err(_) => Err(Halt::NoMemory),
    }
}

// Fills jobs while the open frame is drawn.
fn fill_beside<R: Threads + Sync, F: Filler + Sync>(
    means: &Means<'_, R, F>,
    book: &Book,
    mut tasks: Vec<Task>,
) -> Result<Worked, Halt>
    requires land { F.land means.now.filler.now ≡ book.now.land }
    requires claims { AreClaims book.now tasks.items }
    requires frame { IsSome (frame_of (pass_at book.now.plan.state frame_pass)) }
    ensures jobs { IfOk result (λ worked. AreHomeward book.now 0 worked.jobs.items) }
    ensures mesh { IfOk result (λ worked. IsDrawn book.now worked.mesh) }
{
    filled_jobs_go_back();
    let Ok(()) = tasks.push(Task::Draw { pass: FRAME_PASS }) else {
        return Err(Halt::NoMemory);
    };
    let Ok(mut jobs) = round(means.rt, means.alloc, book, means.filler, tasks, &Quiet) else {
        return Err(Halt::NoMemory);
    };
    match jobs.pop() {
        Some(Done::Drawn { mesh, .. }) => Ok(Worked {
            jobs,
            mesh: Some(mesh),
        }),
        Some(Done::Filled { .. }) => unreachable!(),
        None => unreachable!(),
    }
}

// Fills jobs and draws the open frame, if there is one, all at once.
pub(crate) fn work<R: Threads + Sync, F: Filler + Sync>(
    means: &Means<'_, R, F>,
    book: &Book,
    tasks: Vec<Task>,
) -> Result<Worked, Halt>
    requires land { F.land means.now.filler.now ≡ book.now.land }
    requires claims { AreClaims book.now tasks.items }
    ensures jobs { IfOk result (λ worked. AreHomeward book.now 0 worked.jobs.items) }
    ensures mesh { IfOk result (λ worked. IsDrawn book.now worked.mesh) }
{
    match book.frame_of(FRAME_PASS) {
        Some(_) => fill_beside(means, book, tasks),
        None => fill_alone(means, book, tasks),
    }
}
