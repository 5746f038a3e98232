//! The events of a book, what they answer, and the entries of a history.

use crate::tiles::{Piece, TileId};
use clip_regions::Region;

/// An event of a pass. The pass of a move or a publication decides nothing.
#[derive(Clone, Copy, PartialEq, Eq, Debug)]
pub enum Event {
    /// The viewer moves to sample (`x`, `y`) of the mosaic, at altitude `a`.
    Move {
        /// The viewer's column.
        x: i32,
        /// The viewer's row.
        y: i32,
        /// The viewer's altitude, 0 to 1048576: it decides which levels are in use.
        a: u32,
    },
    /// The pass asks for a piece to fill.
    Claim,
    /// The pass gives its filled piece back. It has a job.
    Finish,
    /// The filled region of a level takes its current strip in.
    Publish {
        /// The level.
        level: u8,
    },
    /// The pass begins a frame.
    Begin,
    /// The pass ends its frame.
    End,
}

/// What an event answers. HasWork, Idle, Ripe, Busy, Held, Waiting, Whole and NoFrame are refusals, and
/// a refused event changes nothing.
#[derive(Clone, Copy, PartialEq, Eq, Debug)]
pub enum Answer {
    /// The viewer moved.
    Moved,
    /// A claim gave this piece.
    Job {
        /// The piece's level.
        level: u8,
        /// The column of the piece's block.
        bx: i32,
        /// The row of the piece's block.
        by: i32,
        /// The cells to fill.
        cells: Region,
        /// The plan number of the level at the claim.
        plan: u64,
    },
    /// Every level in use is whole, so there is nothing to claim.
    Idle,
    /// All pieces of the current strip of the coarsest level in use that isn't whole are finished.
    Ripe {
        /// That level.
        level: u8,
    },
    /// The tile of the first unfinished piece is pinned by a frame.
    Busy {
        /// The piece's level.
        level: u8,
        /// The pinned tile.
        tile: TileId,
        /// The least number of a frame that pins it.
        frame: u64,
    },
    /// A tile that is needed is held by a pass.
    Held {
        /// The tile's level.
        level: u8,
        /// The held tile.
        tile: TileId,
        /// The pass that holds it.
        pass: u8,
    },
    /// The pass has a job or a frame already.
    HasWork,
    /// The piece that was given back is finished.
    Kept,
    /// The piece that was given back is of an older plan: its tile goes home, and nothing is finished.
    Stale {
        /// The plan number of the job.
        plan: u64,
        /// The plan number of the level now.
        now: u64,
    },
    /// The level's filled region is this now.
    Grown {
        /// The new filled region.
        region: Region,
    },
    /// Some pieces of the current strip aren't finished.
    Waiting {
        /// How many.
        pieces: u32,
    },
    /// The level has no current strip: it is whole, or left out.
    Whole,
    /// A frame was begun.
    Frame {
        /// Its number: frames are numbered from 0.
        number: u64,
    },
    /// A frame has ended.
    Closed {
        /// Its number.
        number: u64,
    },
    /// The pass has no frame.
    NoFrame,
}

/// One line of a history: an event of a pass, and what it answered.
#[derive(Clone, Copy, PartialEq, Eq, Debug)]
pub struct Entry {
    /// The pass: 0 to 15.
    pub pass: u8,
    /// What it asked for.
    pub event: Event,
    /// What it was answered.
    pub answer: Answer,
}

/// A job that a pass has: a piece of a level, and the level's plan number at the claim.
#[derive(Clone, Copy, PartialEq, Eq, Debug)]
pub struct JobNote {
    /// The piece's level.
    pub level: u8,
    /// The piece.
    pub piece: Piece,
    /// The plan number.
    pub plan: u64,
}

/// What a pass has: nothing, a job or a frame.
#[derive(Drop)]
pub enum Work<F> {
    /// The pass has nothing.
    Free,
    /// The pass fills the piece of a job.
    Fills(JobNote),
    /// The pass draws a frame.
    Draws(F),
}

/// One line of a flight's script.
#[derive(Clone, Copy, PartialEq, Eq, Debug)]
pub enum FlyLine {
    /// The viewer moves to sample (`x`, `y`) of the mosaic, at altitude `a`.
    Move {
        /// The viewer's column.
        x: i32,
        /// The viewer's row.
        y: i32,
        /// The viewer's altitude, 0 to 1048576: it decides which levels are in use.
        a: u32,
    },
    /// A frame is begun and one round is flown.
    Frame,
    /// Rounds are flown until every level in use is whole.
    Settle,
}
