//! Scripts of events with their wanted answers.

ghost use Rattle.plan_model.specs.Limits.{IsSize, IsLevelCount};

use crate::tests::keeper::Keeper;
use clip_regions::Region;
use height_pyramid::Grid;
use plan_model::{Answer, Event, TileId};
use std::alloc::{AllocError, Global};
use std::process::Abort;
use std::test::Fail;

/// A level, and the column and the row of a block of it.
#[derive(Clone, Copy, PartialEq, Eq, Debug)]
pub struct Place {
    pub level: u8,
    pub bx: i32,
    pub by: i32,
}

/// What is wanted of an answer.
#[derive(Clone, Copy)]
pub enum Wanted {
    /// This answer.
    Is(Answer),
    /// A job at this place.
    JobAt(Place),
    /// A job of this level.
    JobOf(u8),
}

/// An event of a pass, and what is wanted of its answer.
#[derive(Clone, Copy)]
pub struct Row {
    pub pass: u8,
    pub event: Event,
    pub wanted: Wanted,
}

/// An event of a pass with its answer.
pub fn asks(pass: u8, event: Event, answer: Answer) -> Row {
    Row {
        pass,
        event,
        wanted: Wanted::Is(answer),
    }
}

/// A place of a level.
pub fn at(level: u8, bx: i32, by: i32) -> Place {
    Place { level, bx, by }
}

/// A move.
pub fn moves(x: i32, y: i32) -> Row {
    climbs(x, y, 0)
}

/// A move to an altitude.
pub fn climbs(x: i32, y: i32, a: u32) -> Row {
    asks(0, Event::Move { x, y, a }, Answer::Moved)
}

/// A region from its west, north, east and south.
pub fn region(x0: i32, y0: i32, x1: i32, y1: i32) -> Region {
    Region { x0, y0, x1, y1 }
}

/// A job of a level: its block, its cells and its plan number.
pub fn job(level: u8, bx: i32, by: i32, cells: Region, plan: u64) -> Answer {
    Answer::Job {
        level,
        bx,
        by,
        cells,
        plan,
    }
}

/// A tile of a level that is held by a pass.
pub fn held(level: u8, tx: u8, ty: u8, pass: u8) -> Answer {
    let tile = TileId { tx, ty };
    Answer::Held { level, tile, pass }
}

/// A tile of a level that is pinned by a frame.
pub fn busy(level: u8, tx: u8, ty: u8, frame: u64) -> Answer {
    let tile = TileId { tx, ty };
    Answer::Busy { level, tile, frame }
}

/// A script that grows.
pub struct Script {
    rows: Vec<Row>,
}

impl Drop for Script {
    fn drop(self) {
        let Script { rows: _ } = self;
    }
}

impl Script {
    /// A script without a row.
    pub fn new(alloc: Global) -> Script {
        Script {
            rows: Vec::new(alloc),
        }
    }

    /// Some more rows.
    pub fn rows(&mut self, rows: &[Row]) -> Result<(), AllocError> {
        self.rows.extend_from_slice(rows)
    }

    // A claim of which this is wanted, and its finish, which is kept.
    fn pair(&mut self, pass: u8, wanted: Wanted) -> Result<(), AllocError> {
        self.rows.push(Row {
            pass,
            event: Event::Claim,
            wanted,
        })?;
        self.rows.push(asks(pass, Event::Finish, Answer::Kept))?;
        Ok(())
    }

    /// So many pairs of a claim that gives a job of a level, and its finish, which is kept.
    pub fn pairs(&mut self, pass: u8, level: u8, count: u8) -> Result<(), AllocError> {
        for _ in 0..count {
            self.pair(pass, Wanted::JobOf(level))?;
        }
        Ok(())
    }

    /// Pairs of a claim that gives a job at these places in turn, and its finish, which is kept.
    pub fn jobs(&mut self, pass: u8, places: &[Place]) -> Result<(), AllocError> {
        for place in places {
            self.pair(pass, Wanted::JobAt(*place))?;
        }
        Ok(())
    }

    /// A level is filled up to this region: so many pairs, and its publication.
    pub fn fills(&mut self, level: u8, pairs: u8, region: Region) -> Result<(), AllocError> {
        self.pairs(0, level, pairs)?;
        let grown = asks(0, Event::Publish { level }, Answer::Grown { region });
        self.rows(&[grown])
    }
}

// The terrain of the scripts: heights 1 to 9 in 3 x 3 samples.
fn tile(alloc: Global) -> Result<Grid, Fail> {
    Ok(Grid::new(3, 3, vec![in alloc; 1i16, 2, 3, 4, 5, 6, 7, 8, 9]?))
}

// Takes an event, and compares the heights of the pass's frame after it.
fn take(rt: &impl Abort, book: &mut Keeper, row: &Row) {
    let answer = book.step(rt, row.pass, row.event);
    compare(rt, row.wanted, answer);
    for pass in 0..16u8 {
        book.look(rt, pass);
    }
}

/// Runs a script from the start, and compares the answers, and the heights of all open frames after each.
pub fn check(rt: &impl Abort, alloc: Global, k: u8, levels: u8, script: &Script) -> Result<(), Fail>
    requires k { IsSize k }
    requires levels { IsLevelCount levels }
{
    let mut book = Keeper::start(alloc, tile(alloc)?, k, levels)?;
    for row in script.rows.as_slice() {
        take(rt, &mut book, row);
    }
    Ok(())
}

// Where the job of an answer is, where it gives one.
fn place_of(answer: Answer) -> Option<Place> {
    match answer {
        Answer::Job { level, bx, by, .. } => Some(at(level, bx, by)),
        _ => None,
    }
}

// Compares an answer with what is wanted of it.
fn compare(rt: &impl Abort, wanted: Wanted, answer: Answer) {
    match wanted {
        Wanted::Is(wanted) => assert_eq!(rt; answer, wanted),
        Wanted::JobAt(place) => assert_eq!(rt; place_of(answer), Some(place)),
        Wanted::JobOf(level) => {
            let found = place_of(answer).map(|place| place.level);
            assert_eq!(rt; found, Some(level));
        }
    }
}
