//! Parts of a round's tasks, for a thread each.

ghost use Rattle.std.specs.Prelude.{◌≡◌, ◌++◌, ◌∷◌, [], flat_map, IfOk, OnOk};
ghost use Rattle.decode_rounds.specs.Parts.{tasks_in};

use crate::tasks::Task;
use std::alloc::{AllocError, Global};
use std::thread::{Threads, available_parallelism};

// Fewer fills than these are no work for a thread of their own: they take as long as a few starts of threads.
const FEW: usize = 128;

// Tasks that one thread does in turn, one draw or some fills, and the place of the first among all tasks of the round.
#[derive(Drop)]
pub(crate) struct Part {
    pub(crate) first: usize,
    pub(crate) tasks: Vec<Task>,
}

// How many fills a part of a round of so many tasks may have: there are about as many parts as processors.
fn most_for<R: Threads>(rt: &R, tasks: usize) -> usize {
    if tasks <= FEW {
        return FEW;
    }
    match available_parallelism(rt) {
        Ok(count) => tasks.div_ceil(count.get()).max(FEW),
        Err(_) => tasks,
    }
}

fn is_fill(task: &Task) -> bool {
    matches!(task, Task::Fill { .. })
}

// Whether a task goes into the part of the tasks before it: fills of at most so many.
fn goes_into(part: &Part, task: &Task, most: usize) -> bool {
    match part.tasks.first() {
        Some(other) => is_fill(other) && is_fill(task) && part.tasks.len() < most,
        None => true,
    }
}

// Takes out the part into which the task of a place goes: the last one, or else a new one.
fn part_for(
    alloc: Global,
    parts: &mut Vec<Part>,
    place: usize,
    task: &Task,
    most: usize,
) -> Result<Part, AllocError>
    ensures { IfOk result (λ part.
        flat_map tasks_in parts.new.items ++ part.tasks.items ≡ flat_map tasks_in parts.old.items) }
{
    if let Some(part) = parts.pop() {
        if goes_into(&part, task, most) {
            return Ok(part);
        }
        parts.push(part)?;
    }
    Ok(Part {
        first: place,
        tasks: Vec::new(alloc),
    })
}

// Puts the task of a place behind the others.
fn put(
    alloc: Global,
    parts: &mut Vec<Part>,
    place: usize,
    task: Task,
    most: usize,
) -> Result<(), AllocError>
    ensures { OnOk result (flat_map tasks_in parts.new.items ≡ flat_map tasks_in parts.old.items ++ task ∷ []) }
{
    let mut part = part_for(alloc, parts, place, &task, most)?;
    part.tasks.push(task)?;
    parts.push(part)?;
    Ok(())
}

// Cuts the tasks of a round into parts, in order.
pub(crate) fn parts_of<R: Threads>(
    rt: &R,
    alloc: Global,
    tasks: Vec<Task>,
) -> Result<Vec<Part>, AllocError>
    ensures { IfOk result (λ parts. flat_map tasks_in parts.items ≡ tasks.items) }
{
    let most = most_for(rt, tasks.len());
    let mut parts = Vec::new(alloc);
    let mut place = 0usize;
    for task in tasks {
        put(alloc, &mut parts, place, task, most)?;
        place = place.saturating_add(1);
    }
    Ok(parts)
}
