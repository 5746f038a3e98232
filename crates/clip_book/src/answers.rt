//! What the events of a book are answered.

ghost use Rattle.std.specs.Prelude.{◌≡◌, IsSome};
ghost use Rattle.plan_model.specs.declared.events.Answer.TheVariants.{Frame};
ghost use Rattle.clip_book.specs.Answers.{said_of_claim, said_of_given, said_of_published, said_of_begun, said_of_ended, told_job, told_frame, IsRefusedClaim, IsGivenAnswer, IsPublishedAnswer, IsRefusedBegin, IsEndedAnswer, IsOfNote};

use crate::jobs::Job;
use active_region::Actives;
use book_plan::FrameNote;
use clip_regions::Region;
use plan_model::{Answer, JobNote, Piece, TileId};

/// What a claim is answered.
#[derive(Drop)]
pub enum Claimed {
    /// This job.
    Job(Job),
    /// Every level in use is whole, so there is nothing to claim.
    Idle,
    /// All pieces of the current strip of the coarsest level in use that isn't whole are finished.
    Ripe {
        /// That level.
        level: u8,
    },
    /// The tile of the first unfinished piece is pinned by a frame.
    Busy {
        /// The piece's level.
        level: u8,
        /// The pinned tile.
        tile: TileId,
        /// The least number of a frame that pins it.
        frame: u64,
    },
    /// A tile that is needed is held by a pass.
    Held {
        /// The tile's level.
        level: u8,
        /// The held tile.
        tile: TileId,
        /// The pass that holds it.
        pass: u8,
    },
    /// The pass has a job or a frame already.
    HasWork,
}

/// What a job that is given back is answered.
#[derive(Clone, Copy, PartialEq, Eq, Debug)]
pub enum Given {
    /// The piece is finished.
    Kept,
    /// The job is of an older plan: its tile is home, and nothing is finished.
    Stale {
        /// The plan number of the job.
        plan: u64,
        /// The plan number of the level now.
        now: u64,
    },
}

/// What a publication is answered.
#[derive(Clone, Copy, PartialEq, Eq, Debug)]
pub enum Published {
    /// The level's filled region is this now.
    Grown(Region),
    /// Some pieces of the current strip aren't finished.
    Waiting {
        /// How many.
        pieces: u32,
    },
    /// The level has no current strip: it is whole, or left out.
    Whole,
}

/// What a frame's beginning is answered.
#[derive(Clone, Copy, PartialEq, Eq, Debug)]
pub enum Begun {
    /// A frame was begun.
    Frame {
        /// Its number: frames are numbered from 0.
        number: u64,
        /// Its active regions, the finest level first.
        actives: Actives,
    },
    /// A tile that the frame would show is held by a pass.
    Held {
        /// The tile's level.
        level: u8,
        /// The held tile.
        tile: TileId,
        /// The pass that holds it.
        pass: u8,
    },
    /// The pass has a job or a frame already.
    HasWork,
}

/// What a frame's end is answered.
#[derive(Clone, Copy, PartialEq, Eq, Debug)]
pub enum Ended {
    /// The frame of this number has ended.
    Closed {
        /// Its number.
        number: u64,
    },
    /// The pass has no frame.
    NoFrame,
}

// The job that an answer tells.
pub(crate) fn told_job(answer: Answer) -> Option<JobNote>
    ensures { result ≡ told_job answer }
{
    match answer {
        Answer::Job {
            level,
            bx,
            by,
            cells,
            plan,
        } => Some(JobNote {
            level,
            piece: Piece { bx, by, cells },
            plan,
        }),
        _ => None,
    }
}

// The number of the frame that an answer tells.
pub(crate) fn told_frame(answer: Answer) -> Option<u64>
    ensures { result ≡ told_frame answer }
{
    match answer {
        Answer::Frame { number } => Some(number),
        _ => None,
    }
}

// The refusal of a claim.
pub(crate) fn refused_claim(answer: Answer) -> Claimed
    requires { IsRefusedClaim answer }
    ensures { said_of_claim result ≡ answer }
{
    match answer {
        Answer::Idle => Claimed::Idle,
        Answer::Ripe { level } => Claimed::Ripe { level },
        Answer::Busy { level, tile, frame } => Claimed::Busy { level, tile, frame },
        Answer::Held { level, tile, pass } => Claimed::Held { level, tile, pass },
        Answer::HasWork => Claimed::HasWork,
        _ => unreachable!(),
    }
}

// What a job that is given back is answered.
pub(crate) fn given_answer(answer: Answer) -> Given
    requires { IsGivenAnswer answer }
    ensures { said_of_given result ≡ answer }
{
    match answer {
        Answer::Kept => Given::Kept,
        Answer::Stale { plan, now } => Given::Stale { plan, now },
        _ => unreachable!(),
    }
}

// What a publication is answered.
pub(crate) fn published_answer(answer: Answer) -> Published
    requires { IsPublishedAnswer answer }
    ensures { said_of_published result ≡ answer }
{
    match answer {
        Answer::Grown { region } => Published::Grown(region),
        Answer::Waiting { pieces } => Published::Waiting { pieces },
        Answer::Whole => Published::Whole,
        _ => unreachable!(),
    }
}

// The beginning of the frame of a number, by what is told of the frame.
pub(crate) fn begun_frame(number: u64, note: Option<FrameNote>) -> Begun
    requires { IsSome note }
    ensures said { said_of_begun result ≡ Frame number }
    ensures actives { IsOfNote note result }
{
    match note {
        Some(note) => Begun::Frame {
            number,
            actives: note.actives,
        },
        None => unreachable!(),
    }
}

// The refusal of a frame's beginning.
pub(crate) fn refused_begin(answer: Answer) -> Begun
    requires { IsRefusedBegin answer }
    ensures { said_of_begun result ≡ answer }
{
    match answer {
        Answer::Held { level, tile, pass } => Begun::Held { level, tile, pass },
        Answer::HasWork => Begun::HasWork,
        _ => unreachable!(),
    }
}

// What a frame's end is answered.
pub(crate) fn ended_answer(answer: Answer) -> Ended
    requires { IsEndedAnswer answer }
    ensures { said_of_ended result ≡ answer }
{
    match answer {
        Answer::Closed { number } => Ended::Closed { number },
        Answer::NoFrame => Ended::NoFrame,
        _ => unreachable!(),
    }
}
