//! The lines of scripts and logs, appended to a text.

ghost use Rattle.std.specs.Prelude.{◌≡◌, ◌++◌, OnOk, OnErr};
ghost use Rattle.clip_script.specs.Texts.{log_line, step_line};

use crate::text::{AnswerText, EventText};
use plan_model::{Answer, Event};

/// There was no memory.
#[derive(Debug, Clone, Copy, PartialEq, Eq)]
pub struct NoMemory;

// Appends a line, or nothing.
fn append(out: &mut Vec<u8>, line: &str) -> Result<(), NoMemory>
    ensures line { OnOk result (out.new.items ≡ out.old.items ++ line.now) }
    ensures unchanged { OnErr result (out.new.items ≡ out.old.items) }
{
    match out.extend_from_slice(line.as_bytes()) {
        Ok(()) => Ok(()),
        Err(_) => Err(NoMemory),
    }
}

/// Appends the script line of an event of a pass, with its line feed. The pass of a move or a publication isn't
/// written. Where there is no memory, nothing changes.
#[tactic(auto, unfolding(crate::specs::Texts::step_line))]
pub fn write_step(out: &mut Vec<u8>, pass: u8, event: &Event) -> Result<(), NoMemory>
    ensures line { OnOk result (out.new.items ≡ out.old.items ++ step_line pass event.now) }
    ensures unchanged { OnErr result (out.new.items ≡ out.old.items) }
{
    let event = EventText {
        pass,
        event: *event,
    };
    match format!(in *out.allocator(); "{event}\n") {
        Ok(line) => append(out, line.as_str()),
        Err(_) => Err(NoMemory),
    }
}

/// Appends the log line of an event of a pass and its answer, with its line feed. Of a closed frame it says the number
/// alone, and nothing of a text. A `finish` that is answered [`Answer::Idle`] had no job, and its line says `nojob`.
/// Where there is no memory, nothing changes.
#[tactic(auto, unfolding(crate::specs::Texts::log_line))]
pub fn write_log(
    out: &mut Vec<u8>,
    pass: u8,
    event: &Event,
    answer: &Answer,
) -> Result<(), NoMemory>
    ensures line { OnOk result (out.new.items ≡ out.old.items ++ log_line pass event.now answer.now) }
    ensures unchanged { OnErr result (out.new.items ≡ out.old.items) }
{
    let answer = AnswerText {
        event: *event,
        answer: *answer,
    };
    let event = EventText {
        pass,
        event: *event,
    };
    match format!(in *out.allocator(); "{event}: {answer}\n") {
        Ok(line) => append(out, line.as_str()),
        Err(_) => Err(NoMemory),
    }
}
