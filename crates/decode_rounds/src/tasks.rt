//! Tasks on a book, and how one is done.

ghost use Rattle.std.specs.Prelude.{◌≡◌, IfOk};
ghost use Rattle.decode_rounds.specs.Rounds.{IsTaskOf, IsDoneOf};

use crate::post::Post;
use clip_book::{Book, FilledJob, Job};
use decode_workers::{Filler, NoMemory, draw};
use obj_frames::Mesh;
use std::alloc::Global;

/// What there is to do on a book between its events.
#[derive(Drop)]
pub enum Task {
    /// A frame is to be drawn.
    Draw {
        /// The pass that has the frame, 0 to 15.
        pass: u8,
    },
    /// A job is to be filled.
    Fill {
        /// The pass that has the job, 0 to 15.
        pass: u8,
        /// The job.
        job: Job,
    },
}

/// What was done.
#[derive(Drop)]
pub enum Done {
    /// A frame was drawn.
    Drawn {
        /// The pass that has the frame, 0 to 15.
        pass: u8,
        /// The frame's mesh.
        mesh: Mesh,
    },
    /// A job was filled.
    Filled {
        /// The pass that has the job, 0 to 15.
        pass: u8,
        /// The job with its heights.
        job: FilledJob,
    },
}

// Does a task, without telling of it.
fn result_of<F: Filler>(
    alloc: Global,
    book: &Book,
    filler: &F,
    task: Task,
) -> Result<Done, NoMemory>
    requires names { F.land filler.now ≡ book.now.land }
    requires task { IsTaskOf book.now task }
    ensures result { IfOk result (IsDoneOf book.now task) }
{
    match task {
        Task::Draw { pass } => {
            let mesh = draw(alloc, book, pass)?;
            Ok(Done::Drawn { pass, mesh })
        }
        Task::Fill { pass, job } => Ok(Done::Filled {
            pass,
            job: filler.fill(job),
        }),
    }
}

// Does the task of a place, and tells of it.
pub(crate) fn told<F: Filler, P: Post>(
    alloc: Global,
    book: &Book,
    filler: &F,
    post: &P,
    place: usize,
    task: Task,
) -> Result<Done, NoMemory>
    requires names { F.land filler.now ≡ book.now.land }
    requires task { IsTaskOf book.now task }
    ensures result { IfOk result (IsDoneOf book.now task) }
{
    post.begun(place);
    let result = result_of(alloc, book, filler, task);
    post.ended(place);
    result
}
