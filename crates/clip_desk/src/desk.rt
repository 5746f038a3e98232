//! A book whose jobs are filled as soon as they are claimed.

ghost use Rattle.std.specs.Prelude.{◌≡◌, ◌<◌, ◌^◌, IfOk, Some, None};
ghost use Rattle.std.specs.Prelude.{length, replicate, slice_index_or, slice_set};
ghost use Rattle.plan_model.specs.Limits.{IsSize};
ghost use Rattle.plan_model.specs.declared.events.Event.TheVariants.{Claim, Finish};
ghost use Rattle.clip_script.specs.Ranges.{IsAsked};
ghost use Rattle.clip_book.specs.Books.{started};
ghost use Rattle.clip_desk.specs.Desks.{Takes};

use clip_book::{
    Book, Claimed, FilledJob, told_of_begun, told_of_ended, told_of_given, told_of_job,
    told_of_published,
};
use decode_workers::{Filler, filled_jobs_go_back};
use plan_histories::{moves_leave_parts, others_keep_parts, publications_leave_parts};
use plan_model::{Answer, Event, refusals_change_nothing};
use std::alloc::{AllocError, Global};
use std::marker::Model;
use terrain_store::Shape;

/// There was no memory.
#[derive(Debug, Clone, Copy, PartialEq, Eq)]
pub struct NoMemory;

/// A book whose jobs are filled as soon as they are claimed, so that any of them can be given back. A contract sees the
/// book.
#[derive(Drop)]
pub struct Desk {
    book: Book,
    // The filled job of each pass that has one.
    jobs: Vec<Option<FilledJob>>,
}

impl Model for Desk {
    ghost use Rattle.clip_book.specs.Books.{BookView};
    ghost use Rattle.clip_desk.specs.Desks.{HasJobs};

    ghost Value = { BookView };

    ghost view = { λ s. s.book };

    ghost invariant = { λ s. HasJobs s.book s.jobs.items };
}

// So many places without a job.
#[tactic(auto, using(std::proofs::lemmas::List::replicate_more))]
fn no_jobs(alloc: Global, count: u8) -> Result<Vec<Option<FilledJob>>, AllocError>
    ensures { IfOk result (λ v. v.items ≡ replicate count None) }
{
    let mut jobs = Vec::with_capacity(alloc, count as usize)?;
    'made: for _ in 0..count {
        jobs.push(None)?;
    }
    Ok(jobs)
}

// Keeps the filled job of a pass.
fn keep_job(jobs: &mut [Option<FilledJob>], pass: u8, job: FilledJob)
    requires { pass < length jobs.old }
    ensures { jobs.new ≡ slice_set jobs.old pass (Some job) }
{
    jobs[pass as usize] = Some(job);
}

// Takes the filled job of a pass.
fn take_job(jobs: &mut [Option<FilledJob>], pass: u8) -> Option<FilledJob>
    requires { pass < length jobs.old }
    ensures job { result ≡ slice_index_or jobs.old pass None }
    ensures rest { jobs.new ≡ slice_set jobs.old pass None }
{
    jobs[pass as usize].take()
}

impl Desk {
    /// The book of a terrain at the start, for K from 4 to 8. It fails where memory runs out.
    pub fn start(alloc: Global, shape: Shape, k: u8) -> Result<Desk, NoMemory>
        requires size { IsSize k }
        ensures plan { IfOk result (λ desk. desk.plan ≡ started k shape) }
        ensures land { IfOk result (λ desk. desk.land ≡ shape) }
    {
        let Ok(jobs) = no_jobs(alloc, 16) else {
            return Err(NoMemory);
        };
        let Ok(book) = Book::start(alloc, shape, k) else {
            return Err(NoMemory);
        };
        Ok(Desk { book, jobs })
    }

    /// The book.
    pub fn book(&self) -> &Book
        ensures { result.now ≡ self.now }
    {
        &self.book
    }

    // Pass `pass` claims a piece, which is filled at once.
    fn claim<F: Filler>(&mut self, filler: &F, pass: u8) -> Answer
        requires land { F.land filler.now ≡ self.old.land }
        requires pass { pass < 16 }
        ensures takes { Takes pass Claim result self.old self.new }
    {
        others_keep_parts();
        refusals_change_nothing();
        filled_jobs_go_back();
        match self.book.claim(pass) {
            Claimed::Job(job) => {
                let answer = told_of_job(&job);
                keep_job(self.jobs.as_mut_slice(), pass, filler.fill(job));
                answer
            }
            Claimed::Idle => Answer::Idle,
            Claimed::Ripe { level } => Answer::Ripe { level },
            Claimed::Busy { level, tile, frame } => Answer::Busy { level, tile, frame },
            Claimed::Held { level, tile, pass } => Answer::Held { level, tile, pass },
            Claimed::HasWork => Answer::HasWork,
        }
    }

    // Pass `pass` gives its job back, if it has one.
    fn finish(&mut self, pass: u8) -> Answer
        requires pass { pass < 16 }
        ensures takes { Takes pass Finish result self.old self.new }
    {
        others_keep_parts();
        if !self.book.has_job(pass) {
            return Answer::Idle;
        }
        match take_job(self.jobs.as_mut_slice(), pass) {
            Some(job) => told_of_given(self.book.give_back(pass, job)),
            None => unreachable!(),
        }
    }

    /// Takes an event of a pass, and answers it. A job that is claimed is filled at once. There are at most 2^40 moves
    /// and as many frames.
    pub fn take<F: Filler>(&mut self, filler: &F, pass: u8, event: Event) -> Answer
        requires land { F.land filler.now ≡ self.old.land }
        requires asked { IsAsked (length self.old.plan.state.levels) pass event }
        requires moves { self.old.plan.moves < 2 ^ 40 }
        requires begun { self.old.plan.state.begun < 2 ^ 40 }
        ensures takes { Takes pass event result self.old self.new }
    {
        others_keep_parts();
        moves_leave_parts();
        publications_leave_parts();
        match event {
            Event::Move { x, y, a } => {
                self.book.move_to(x, y, a);
                Answer::Moved
            }
            Event::Claim => self.claim(filler, pass),
            Event::Finish => self.finish(pass),
            Event::Publish { level } => told_of_published(self.book.publish(level)),
            Event::Begin => told_of_begun(&self.book.begin(pass)),
            Event::End => told_of_ended(self.book.end(pass)),
        }
    }
}
