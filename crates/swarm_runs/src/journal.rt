//! The history of a swarm as a play script.

ghost use Rattle.std.specs.Prelude.{◌≡◌, ◌++◌, IfOk, OnOk, string_bytes};
ghost use Rattle.swarm_plays.specs.Journals.{entry_line, journal_text, size_line};

use clip_gate::{Entry, Journal};
pub use clip_script::NoMemory;
use clip_script::write_step;
use std::alloc::{AllocError, Global};

// The line of the sizes.
#[tactic(auto, unfolding(swarm_plays::specs::Journals::size_line))]
fn size_line(alloc: Global, k: u8, levels: u8) -> Result<String, AllocError>
    ensures line { IfOk result (λ line. string_bytes line ≡ size_line k levels) }
{
    format!(in alloc; "size {k} {levels}\n")
}

// A text that begins with the line of the sizes.
fn opened(alloc: Global, k: u8, levels: u8) -> Result<Vec<u8>, NoMemory>
    ensures text { IfOk result (λ text. text.items ≡ size_line k levels) }
{
    match size_line(alloc, k, levels) {
        Ok(line) => Ok(line.into_bytes()),
        Err(_) => Err(NoMemory),
    }
}

// The line of an entry's event, behind the others.
fn append(text: &mut Vec<u8>, entry: &Entry) -> Result<(), NoMemory>
    ensures line { OnOk result (text.new.items ≡ text.old.items ++ entry_line entry.now) }
{
    write_step(text, entry.pass, &entry.event)
}

/// The play script of a history: its sizes, and the line of each event.
pub fn journal_text(
    alloc: Global,
    k: u8,
    levels: u8,
    journal: &Journal,
) -> Result<Vec<u8>, NoMemory>
    ensures text { IfOk result (λ text. text.items ≡ journal_text k levels journal.now) }
{
    let mut text = opened(alloc, k, levels)?;
    for place in 0..journal.len() {
        append(&mut text, &journal.at(place))?;
    }
    Ok(text)
}
