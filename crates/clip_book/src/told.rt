//! What a journal keeps of the answers of a book.

ghost use Rattle.std.specs.Prelude.{◌≡◌};
ghost use Rattle.plan_model.specs.Steps.{job_answer};
ghost use Rattle.clip_book.specs.Answers.{said_of_claim, said_of_given, said_of_published, said_of_begun, said_of_ended};

use crate::answers::{Begun, Claimed, Ended, Given, Published};
use crate::jobs::Job;
use plan_model::Answer;

/// What a journal keeps of a job that was claimed: its level, its piece and its plan number.
pub fn told_of_job(job: &Job) -> Answer
    ensures { result ≡ job_answer job.now.note }
{
    Answer::Job {
        level: job.level(),
        bx: job.bx(),
        by: job.by(),
        cells: job.cells(),
        plan: job.plan(),
    }
}

/// What a journal keeps of the answer of a claim.
pub fn told_of_claim(answer: &Claimed) -> Answer
    ensures { result ≡ said_of_claim answer.now }
{
    match answer {
        Claimed::Job(job) => told_of_job(job),
        Claimed::Idle => Answer::Idle,
        Claimed::Ripe { level } => Answer::Ripe { level: *level },
        Claimed::Busy { level, tile, frame } => Answer::Busy {
            level: *level,
            tile: *tile,
            frame: *frame,
        },
        Claimed::Held { level, tile, pass } => Answer::Held {
            level: *level,
            tile: *tile,
            pass: *pass,
        },
        Claimed::HasWork => Answer::HasWork,
    }
}

/// What a journal keeps of the answer of a job that is given back.
pub fn told_of_given(answer: Given) -> Answer
    ensures { result ≡ said_of_given answer }
{
    match answer {
        Given::Kept => Answer::Kept,
        Given::Stale { plan, now } => Answer::Stale { plan, now },
    }
}

/// What a journal keeps of the answer of a publication.
pub fn told_of_published(answer: Published) -> Answer
    ensures { result ≡ said_of_published answer }
{
    match answer {
        Published::Grown(region) => Answer::Grown { region },
        Published::Waiting { pieces } => Answer::Waiting { pieces },
        Published::Whole => Answer::Whole,
    }
}

/// What a journal keeps of the answer of a frame's beginning.
pub fn told_of_begun(answer: &Begun) -> Answer
    ensures { result ≡ said_of_begun answer.now }
{
    match answer {
        Begun::Frame { number, actives: _ } => Answer::Frame { number: *number },
        Begun::Held { level, tile, pass } => Answer::Held {
            level: *level,
            tile: *tile,
            pass: *pass,
        },
        Begun::HasWork => Answer::HasWork,
    }
}

/// What a journal keeps of the answer of a frame's end.
pub fn told_of_ended(answer: Ended) -> Answer
    ensures { result ≡ said_of_ended answer }
{
    match answer {
        Ended::Closed { number } => Answer::Closed { number },
        Ended::NoFrame => Answer::NoFrame,
    }
}
