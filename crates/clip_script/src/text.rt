//! The texts of events and answers.

ghost use Rattle.std.specs.Prelude.{◌≡◌, Some};
ghost use Rattle.clip_script.specs.Texts.{answer_text, event_text, idle_text, place_text, region_text, tile_text};

use clip_regions::Region;
use plan_model::{Answer, Event, TileId};
use std::fmt;

// The place of a viewer, as a script and a log write it.
#[derive(Drop)]
struct PlaceText {
    x: i32,
    y: i32,
}

impl fmt::Display for PlaceText {
    ghost output = { λ text. Some (place_text text.x text.y) };

    fn fmt<W: fmt::Write>(&self, f: &mut fmt::Formatter<W>) -> fmt::Result {
        let x = self.x;
        let y = self.y;
        write!(f, "{x} {y}")
    }
}

// An event of a pass, as a script and a log write it.
#[derive(Drop)]
pub(crate) struct EventText {
    pub(crate) pass: u8,
    pub(crate) event: Event,
}

impl fmt::Display for EventText {
    ghost output = { λ text. Some (event_text text.pass text.event) };

    fn fmt<W: fmt::Write>(&self, f: &mut fmt::Formatter<W>) -> fmt::Result {
        let pass = self.pass;
        match self.event {
            Event::Move { x, y, a } => {
                let place = PlaceText { x, y };
                if a == 0 {
                    write!(f, "move {place}")
                } else {
                    write!(f, "move {place} {a}")
                }
            }
            Event::Claim => write!(f, "claim {pass}"),
            Event::Finish => write!(f, "finish {pass}"),
            Event::Publish { level } => write!(f, "publish {level}"),
            Event::Begin => write!(f, "begin {pass}"),
            Event::End => write!(f, "end {pass}"),
        }
    }
}

// A tile of a level, as a log names it.
#[derive(Drop)]
struct TileText {
    level: u8,
    tile: TileId,
}

impl fmt::Display for TileText {
    ghost output = { λ text. Some (tile_text text.level text.tile) };

    fn fmt<W: fmt::Write>(&self, f: &mut fmt::Formatter<W>) -> fmt::Result {
        let level = self.level;
        let TileId { tx, ty } = self.tile;
        write!(f, "level {level} tile {tx} {ty}")
    }
}

// A region, as a log writes it.
#[derive(Drop)]
struct RegionText(Region);

impl fmt::Display for RegionText {
    ghost output = { λ text. Some (region_text text.0) };

    fn fmt<W: fmt::Write>(&self, f: &mut fmt::Formatter<W>) -> fmt::Result {
        let Region { x0, y0, x1, y1 } = self.0;
        write!(f, "{x0} {y0} {x1} {y1}")
    }
}

// What an event without anything to do is answered: a pass that gives a piece back had none.
fn idle_text(event: Event) -> &'static str
    ensures value { result.now ≡ idle_text event }
{
    match event {
        Event::Finish => "nojob",
        Event::Move { .. } | Event::Claim | Event::Publish { .. } | Event::Begin | Event::End => {
            "idle"
        }
    }
}

// The answer of an event, as a log writes it.
#[derive(Drop)]
pub(crate) struct AnswerText {
    pub(crate) event: Event,
    pub(crate) answer: Answer,
}

impl fmt::Display for AnswerText {
    ghost output = { λ text. Some (answer_text text.event text.answer) };

    fn fmt<W: fmt::Write>(&self, f: &mut fmt::Formatter<W>) -> fmt::Result {
        match self.answer {
            Answer::Moved => write!(f, "moved"),
            Answer::Job {
                level,
                bx,
                by,
                cells,
                plan,
            } => {
                let cells = RegionText(cells);
                write!(
                    f,
                    "job level {level} block {bx} {by} cells {cells} plan {plan}"
                )
            }
            Answer::Idle => {
                let idle = idle_text(self.event);
                write!(f, "{idle}")
            }
            Answer::Ripe { level } => write!(f, "ripe {level}"),
            Answer::Busy { level, tile, frame } => {
                let tile = TileText { level, tile };
                write!(f, "busy {tile} frame {frame}")
            }
            Answer::Held { level, tile, pass } => {
                let tile = TileText { level, tile };
                write!(f, "held {tile} pass {pass}")
            }
            Answer::HasWork => write!(f, "haswork"),
            Answer::Kept => write!(f, "kept"),
            Answer::Stale { plan, now } => write!(f, "stale {plan} now {now}"),
            Answer::Grown { region } => {
                let region = RegionText(region);
                write!(f, "grown {region}")
            }
            Answer::Waiting { pieces } => write!(f, "waiting {pieces}"),
            Answer::Whole => write!(f, "whole"),
            Answer::Frame { number } => write!(f, "frame {number}"),
            Answer::Closed { number } => write!(f, "closed {number}"),
            Answer::NoFrame => write!(f, "noframe"),
        }
    }
}
