//! The lines of a log.

ghost use Rattle.std.specs.Prelude.{◌≡◌, ◌++◌, IfOk, OnOk, Some, flat_map, length, string_bytes};
ghost use Rattle.clip_script.specs.Texts.{log_line};
ghost use Rattle.clip_desk.specs.Lines.{closed_line, closed_seen_line, kept_text, unseen_line, space_text, view_line};
ghost use Rattle.clip_desk.specs.Lines.{told_line};

use clip_script::{HalfSpace, View, write_log};
use plan_model::{Answer, Event};
use std::alloc::{AllocError, Global};
use std::fmt;
use std::fmt::Write;

/// The line of an event of a pass and its answer.
pub fn event_line(
    alloc: Global,
    pass: u8,
    event: Event,
    answer: Answer,
) -> Result<Vec<u8>, AllocError>
    ensures line { IfOk result (λ line. line.items ≡ log_line pass event answer) }
{
    let mut line = Vec::new(alloc);
    match write_log(&mut line, pass, &event, &answer) {
        Ok(()) => Ok(line),
        Err(_) => Err(AllocError),
    }
}

/// The line of a frame that was drawn alone, and how many vertices and triangles its text has.
pub fn frame_line(
    alloc: Global,
    number: u64,
    vertices: usize,
    triangles: usize,
) -> Result<String, AllocError>
    ensures line { IfOk result (λ line. string_bytes line ≡ told_line number vertices triangles) }
{
    format!(in alloc; "frame {number} vertices {vertices} triangles {triangles}\n")
}

/// The line of the end of a frame: its pass, its number, and how many vertices and triangles its text has.
#[tactic(auto, unfolding(crate::specs::Lines::closed_line))]
pub fn closed_line(
    alloc: Global,
    pass: u8,
    number: u64,
    vertices: usize,
    triangles: usize,
) -> Result<String, AllocError>
    ensures line { IfOk result (λ line. string_bytes line ≡ closed_line pass number vertices triangles) }
{
    format!(in alloc; "end {pass}: closed {number} vertices {vertices} triangles {triangles}\n")
}

/// How much of a frame a view keeps.
#[derive(Clone, Copy)]
pub struct KeptCounts {
    /// How many parts.
    pub kept: usize,
    /// How many parts there are.
    pub parts: usize,
    /// How many vertices the kept parts have.
    pub vertices: usize,
    /// How many triangles they have.
    pub triangles: usize,
}

// The head of such a line: the pass, the frame's number, and how many of how many parts are kept.
#[tactic(auto, unfolding(crate::specs::Lines::kept_text))]
fn kept_text(
    alloc: Global,
    pass: u8,
    number: u64,
    kept: usize,
    parts: usize,
) -> Result<String, AllocError>
    ensures text { IfOk result (λ text. string_bytes text ≡ kept_text pass number kept parts) }
{
    format!(in alloc; "endseen {pass}: closed {number} kept {kept} of {parts}")
}

/// The line of the end of a frame of which some parts are written.
#[tactic(auto, unfolding(crate::specs::Lines::closed_seen_line))]
pub fn closed_seen_line(
    alloc: Global,
    pass: u8,
    number: u64,
    counts: KeptCounts,
) -> Result<String, AllocError>
    ensures line { IfOk result (λ line. string_bytes line
        ≡ closed_seen_line pass number counts.kept counts.parts counts.vertices counts.triangles) }
{
    let text = kept_text(alloc, pass, number, counts.kept, counts.parts)?;
    let vertices = counts.vertices;
    let triangles = counts.triangles;
    format!(in alloc; "{text} vertices {vertices} triangles {triangles}\n")
}

/// The line of such an end of a pass without a frame.
#[tactic(auto, unfolding(crate::specs::Lines::unseen_line))]
pub fn unseen_line(alloc: Global, pass: u8) -> Result<String, AllocError>
    ensures line { IfOk result (λ line. string_bytes line ≡ unseen_line pass) }
{
    format!(in alloc; "endseen {pass}: noframe\n")
}

// A half-space of a view's line.
#[derive(Drop)]
struct SpaceText(HalfSpace);

impl fmt::Display for SpaceText {
    ghost output = { λ text. Some (space_text text.0) };

    fn fmt<W: fmt::Write>(&self, f: &mut fmt::Formatter<W>) -> fmt::Result {
        let HalfSpace { a, b, c, d } = self.0;
        write!(f, " {a} {b} {c} {d}")
    }
}

// The half-spaces of a view's line, behind `see`.
fn append_spaces(line: &mut String, spaces: &[HalfSpace]) -> Result<(), AllocError>
    ensures spaces { OnOk result (string_bytes line.new ≡ string_bytes line.old ++ flat_map space_text spaces.now) }
{
    for space in spaces {
        let text = SpaceText(*space);
        match write!(line, "{text}") {
            Ok(()) => {}
            Err(_) => return Err(AllocError),
        }
    }
    Ok(())
}

/// The line of a view.
#[tactic(auto, unfolding(crate::specs::Lines::view_line))]
pub fn view_line(alloc: Global, view: &View) -> Result<String, AllocError>
    ensures line { IfOk result (λ line. string_bytes line ≡ view_line view.now) }
{
    let mut text = String::from_str(alloc, "see")?;
    append_spaces(&mut text, view.spaces())?;
    let count = view.count();
    format!(in alloc; "{text}: view {count}\n")
}
