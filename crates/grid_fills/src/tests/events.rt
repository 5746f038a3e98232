//! The events of a book whose jobs are kept by pass, with the plain answers.

ghost use Rattle.std.specs.Prelude.{◌≡◌, ◌^◌, ◌<◌, ◌≤◌, length, None, slice_index_or};
ghost use Rattle.plan_model.specs.Limits.{IsViewer};
ghost use Rattle.terrain_store.specs.Shapes.{IsLand};
ghost use Rattle.clip_book.specs.Books.{IsJobOf};
ghost use Rattle.grid_fills.specs.Holding.{HoldsJobs};

use crate::fill_job;
use clip_book::{
    Begun, Book, Claimed, Ended, Job, told_of_begun, told_of_claim, told_of_ended, told_of_given,
    told_of_job, told_of_published,
};
use height_pyramid::Grid;
use plan_histories::{moves_leave_parts, others_keep_parts, publications_leave_parts};
use plan_model::{Answer, Event, refusals_change_nothing};
use plan_plain::is_taken;
use std::process::Abort;

// The viewer moves.
fn move_viewer(book: &mut Book, jobs: &[Option<Job>], x: i32, y: i32, a: u32) -> Answer
    requires viewer { IsViewer x y a }
    requires moves { book.old.plan.moves < 2 ^ 40 }
    requires jobs { HoldsJobs book.old jobs.now }
    ensures land { book.new.land ≡ book.old.land }
    ensures jobs { HoldsJobs book.new jobs.now }
{
    moves_leave_parts();
    book.move_to(x, y, a);
    Answer::Moved
}

// A level is published.
fn publish(book: &mut Book, jobs: &[Option<Job>], level: u8) -> Answer
    requires level { level < length book.old.plan.state.levels }
    requires jobs { HoldsJobs book.old jobs.now }
    ensures land { book.new.land ≡ book.old.land }
    ensures jobs { HoldsJobs book.new jobs.now }
{
    publications_leave_parts();
    told_of_published(book.publish(level))
}

// A pass without a job begins a frame.
fn begin(book: &mut Book, jobs: &[Option<Job>], pass: u8) -> Answer
    requires pass { pass < 16 }
    requires begun { book.old.plan.state.begun < 2 ^ 40 }
    requires free { slice_index_or jobs.now pass None ≡ None }
    requires jobs { HoldsJobs book.old jobs.now }
    ensures land { book.new.land ≡ book.old.land }
    ensures jobs { HoldsJobs book.new jobs.now }
{
    others_keep_parts();
    let begun = book.begin(pass);
    told_of_begun(&begun)
}

// A pass with a job is refused a frame.
fn begin_in_vain(rt: &impl Abort, book: &mut Book, jobs: &[Option<Job>], pass: u8) -> Answer
    requires pass { pass < 16 }
    requires begun { book.old.plan.state.begun < 2 ^ 40 }
    requires jobs { HoldsJobs book.old jobs.now }
    ensures land { book.new.land ≡ book.old.land }
    ensures jobs { HoldsJobs book.new jobs.now }
{
    refusals_change_nothing();
    match book.begin(pass) {
        Begun::HasWork => Answer::HasWork,
        _ => panic!(rt; "a pass with a job began a frame"),
    }
}

// A pass without a job ends its frame.
fn end(book: &mut Book, jobs: &[Option<Job>], pass: u8) -> Answer
    requires pass { pass < 16 }
    requires free { slice_index_or jobs.now pass None ≡ None }
    requires jobs { HoldsJobs book.old jobs.now }
    ensures land { book.new.land ≡ book.old.land }
    ensures jobs { HoldsJobs book.new jobs.now }
{
    others_keep_parts();
    told_of_ended(book.end(pass))
}

// A pass with a job has no frame to end.
fn end_in_vain(rt: &impl Abort, book: &mut Book, jobs: &[Option<Job>], pass: u8) -> Answer
    requires pass { pass < 16 }
    requires jobs { HoldsJobs book.old jobs.now }
    ensures land { book.new.land ≡ book.old.land }
    ensures jobs { HoldsJobs book.new jobs.now }
{
    refusals_change_nothing();
    match book.end(pass) {
        Ended::NoFrame => Answer::NoFrame,
        _ => panic!(rt; "a pass with a job ended a frame"),
    }
}

// A pass without a job claims, and keeps the job that it is given.
fn claim(book: &mut Book, jobs: &mut [Option<Job>], pass: u8) -> Answer
    requires pass { pass < 16 }
    requires many { length jobs.old ≡ 16 }
    requires free { slice_index_or jobs.old pass None ≡ None }
    requires jobs { HoldsJobs book.old jobs.old }
    ensures land { book.new.land ≡ book.old.land }
    ensures many { length jobs.new ≡ 16 }
    ensures jobs { HoldsJobs book.new jobs.new }
{
    others_keep_parts();
    match book.claim(pass) {
        Claimed::Job(job) => {
            let answer = told_of_job(&job);
            jobs[pass as usize] = Some(job);
            answer
        }
        refused => told_of_claim(&refused),
    }
}

// A pass with a job is refused another.
fn claim_in_vain(rt: &impl Abort, book: &mut Book, jobs: &[Option<Job>], pass: u8) -> Answer
    requires pass { pass < 16 }
    requires jobs { HoldsJobs book.old jobs.now }
    ensures land { book.new.land ≡ book.old.land }
    ensures jobs { HoldsJobs book.new jobs.now }
{
    refusals_change_nothing();
    match book.claim(pass) {
        Claimed::HasWork => Answer::HasWork,
        _ => panic!(rt; "a pass with a job was given another"),
    }
}

// A pass gives its job back, filled from the grid. A pass without one has none to give back.
fn finish(
    rt: &impl Abort,
    grid: &Grid,
    book: &mut Book,
    jobs: &mut [Option<Job>],
    pass: u8,
) -> Answer
    requires terrain { book.old.land.terrain ≡ grid.now }
    requires land { IsLand book.old.land }
    requires pass { pass < 16 }
    requires many { length jobs.old ≡ 16 }
    requires jobs { HoldsJobs book.old jobs.old }

    // The book is of the same terrain, and holds the jobs that are left.
    ensures land { book.new.land ≡ book.old.land }
    ensures many { length jobs.new ≡ 16 }
    ensures jobs { HoldsJobs book.new jobs.new }
{
    let Some(job) = jobs[pass as usize].take() else {
        assert!(rt; !book.has_job(pass));
        return Answer::Idle;
    };
    give_back(grid, book, jobs, pass, job)
}

// A pass gives this job back.
fn give_back(grid: &Grid, book: &mut Book, jobs: &[Option<Job>], pass: u8, job: Job) -> Answer
    requires terrain { book.old.land.terrain ≡ grid.now }
    requires land { IsLand book.old.land }
    requires pass { pass < 16 }
    requires job { IsJobOf book.old pass job }
    requires free { slice_index_or jobs.now pass None ≡ None }
    requires jobs { HoldsJobs book.old jobs.now }

    // The book is of the same terrain, and holds the jobs that are left.
    ensures land { book.new.land ≡ book.old.land }
    ensures jobs { HoldsJobs book.new jobs.now }
{
    others_keep_parts();
    let _patch = job.patch();
    let filled = fill_job(grid, job);
    told_of_given(book.give_back(pass, filled))
}

/// Takes an event of a pass that a book can take, and tells the answer.
pub fn take(
    rt: &impl Abort,
    grid: &Grid,
    book: &mut Book,
    jobs: &mut [Option<Job>],
    pass: u8,
    event: Event,
) -> Answer
    requires terrain { book.old.land.terrain ≡ grid.now }
    requires land { IsLand book.old.land }
    requires many { length jobs.old ≡ 16 }
    requires jobs { HoldsJobs book.old jobs.old }

    // The book is of the same terrain, and holds the jobs.
    ensures land { book.new.land ≡ book.old.land }
    ensures many { length jobs.new ≡ 16 }
    ensures jobs { HoldsJobs book.new jobs.new }
{
    assert!(rt; pass < 16 && is_taken(book.levels(), event));
    assert!(rt; book.moves() < 1099511627776 && book.begun() < 1099511627776);
    let busy = jobs[pass as usize].is_some();
    match event {
        Event::Move { x, y, a } => move_viewer(book, jobs, x, y, a),
        Event::Publish { level } => publish(book, jobs, level),
        Event::Finish => finish(rt, grid, book, jobs, pass),
        Event::Claim if busy => claim_in_vain(rt, book, jobs, pass),
        Event::Begin if busy => begin_in_vain(rt, book, jobs, pass),
        Event::End if busy => end_in_vain(rt, book, jobs, pass),
        Event::Claim => claim(book, jobs, pass),
        Event::Begin => begin(book, jobs, pass),
        Event::End => end(book, jobs, pass),
    }
}
