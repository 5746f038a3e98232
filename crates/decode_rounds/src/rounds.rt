//! A round: its parts beside each other, and their results in order.

ghost use Rattle.std.specs.Prelude.{◌≡◌, All, IfOk};
ghost use Rattle.std.specs.List.{AllZip};
ghost use Rattle.std.specs.Thread.{IsSync};
ghost use Rattle.decode_rounds.specs.Rounds.{IsTaskOf, IsDoneOf};
ghost use Rattle.decode_rounds.specs.Parts.{JoinsAll};

use crate::parts::{Part, parts_of};
use crate::post::Post;
use crate::tasks::{Done, Task, told};
use clip_book::Book;
use decode_workers::{Filler, NoMemory};
use std::alloc::Global;
use std::thread::{Threads, map_vec};

// Does tasks one after another. The first of them has that place among all tasks of the round.
fn in_turn<F: Filler, P: Post>(
    alloc: Global,
    book: &Book,
    filler: &F,
    post: &P,
    first: usize,
    tasks: Vec<Task>,
) -> Result<Vec<Done>, NoMemory>
    requires names { F.land filler.now ≡ book.now.land }
    requires tasks { All (IsTaskOf book.now) tasks.items }
    ensures results { IfOk result (λ all. AllZip (IsDoneOf book.now) tasks.items all.items) }
{
    let mut all = Vec::with_capacity(alloc, tasks.len())?;
    let mut place = first;
    for task in tasks {
        let done = told(alloc, book, filler, post, place, task)?;
        match all.push(done) {
            Ok(()) => {}
            Err(_) => return Err(NoMemory),
        }
        place = place.saturating_add(1);
    }
    Ok(all)
}

// The results of all parts, one part behind the other.
fn joined(alloc: Global, parts: Vec<Result<Vec<Done>, NoMemory>>) -> Result<Vec<Done>, NoMemory>
    ensures { IfOk result (λ all. JoinsAll parts.items all.items) }
{
    let mut all = Vec::new(alloc);
    for part in parts {
        let mut done = part?;
        all.append(&mut done)?;
    }
    Ok(all)
}

/// Draws frames of a book and fills jobs of its terrain, all at once, and gives the results in the order of the tasks.
///
/// Each result is that of [`draw`](decode_workers::draw) or of [`Filler::fill`] for its task. `post` is told as each
/// begins and ends. The only refusal is want of memory: then the tasks are dropped, with their jobs.
pub fn round<R: Threads + Sync, F: Filler + Sync, P: Post + Sync>(
    rt: &R,
    alloc: Global,
    book: &Book,
    filler: &F,
    tasks: Vec<Task>,
    post: &P,
) -> Result<Vec<Done>, NoMemory>
    // The filler's terrain is the book's. Each pass that is to draw has a frame, and each job names the book's terrain.
    requires names { F.land filler.now ≡ book.now.land }
    requires tasks { All (IsTaskOf book.now) tasks.items }
    // Task by task, what was done.
    ensures results { IfOk result (λ all. AllZip (IsDoneOf book.now) tasks.items all.items) }
{
    let parts = parts_of(rt, alloc, tasks)?;
    let work = move |part: Part| -> Result<Vec<Done>, NoMemory>
        requires { (F.land filler.now ≡ book.now.land) × All (IsTaskOf book.now) part.tasks.items }
        ensures { IfOk result (λ all. AllZip (IsDoneOf book.entry.now) part.tasks.items all.items) }
    { in_turn(alloc, book, filler, post, part.first, part.tasks) };
    let done = map_vec(rt, parts, &work)?;
    joined(alloc, done)
}
