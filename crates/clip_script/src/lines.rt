//! The lines of a script, read one after the other.

ghost use Rattle.std.specs.Prelude.{◌≡◌, ℕ, ◌+◌, ◌≤◌, List, All, Option, Ok, IfOk, IfErr, IfSome, OnOk, length, vec_len, [], ◌∷◌, ◌++◌};
ghost use Rattle.clip_script.specs.Lines.{lines};
ghost use Rattle.clip_script.specs.Reading.{said_in, opened_in, opened_as, IsStop};

use crate::cut::{is_skipped, next_line};
use crate::fault::ScriptFault;
use std::alloc::Global;

// What a line of some kind says.
pub(crate) trait Grammar<T> {
    // What a line says.
    ghost says: { Self → List ℕ → Option T };

    // What is true of all that lines say.
    ghost fits: { Self → T → Type 0 };

    // What a line without its line feed says, and `None` where it says nothing.
    fn read(&self, line: &[u8]) -> Option<T>
        ensures value { result ≡ says self.now line.now }
        ensures fits { IfSome result (fits self.now) };
}

// The lines of a script that are left, and how many lines stand before them.
#[derive(Clone, Copy)]
pub(crate) struct Left<'a> {
    pub(crate) before: u64,
    pub(crate) text: &'a [u8],
}

// What a line says that others follow.
#[derive(Clone, Copy)]
pub(crate) struct Opening<'a, T> {
    pub(crate) said: T,
    pub(crate) left: Left<'a>,
}

// How many lines a text has.
pub(crate) fn line_count(text: &[u8]) -> u64
    ensures value { result ≡ length (lines text.now) }
{
    let mut text = text;
    let mut count = 0;
    while !text.is_empty() {
        text = next_line(text).rest;
        count += 1;
    }
    count
}

// What the first line says that isn't skipped.
pub(crate) fn read_opening<'a, T: Drop, G: Grammar<T>>(
    grammar: &G,
    left: Left<'a>,
) -> Result<Opening<'a, T>, ScriptFault>
    requires few { left.before + length (lines left.text.now) ≤ 1048577 }
    ensures said { IfOk result (λ opening. opened_in (G.says grammar.now) left.entry ≡ Ok (opened_as opening)) }
    ensures fits { IfOk result (λ opening. G.fits grammar.now opening.said) }
    ensures few { IfOk result (λ opening. opening.left.before + length (lines opening.left.text.now) ≤ 1048577) }
    ensures stop { IfErr result (IsStop (opened_in (G.says grammar.now) left.entry)) }
{
    let Left {
        mut before,
        mut text,
    } = left;
    while !text.is_empty() {
        let line = next_line(text);
        before += 1;
        text = line.rest;
        if !is_skipped(line.front) {
            return match grammar.read(line.front) {
                Some(said) => Ok(Opening {
                    said,
                    left: Left { before, text },
                }),
                None => Err(ScriptFault::BadLine { line: before }),
            };
        }
    }
    Err(ScriptFault::BadLine { line: before + 1 })
}

// Appends what a line says.
fn append<T: Drop>(all: &mut Vec<T>, said: T) -> Result<(), ScriptFault>
    ensures ok { OnOk result (all.new.items ≡ all.old.items ++ said ∷ []) }
    ensures err { IfErr result (λ fault. fault ≡ ScriptFault.NoMemory) }
{
    match all.push(said) {
        Ok(()) => Ok(()),
        Err(_) => Err(ScriptFault::NoMemory),
    }
}

// What all lines say that aren't skipped.
pub(crate) fn read_all<T: Drop, G: Grammar<T>>(
    alloc: Global,
    grammar: &G,
    left: Left<'_>,
) -> Result<Vec<T>, ScriptFault>
    requires few { left.before + length (lines left.text.now) ≤ 1048577 }
    ensures said { IfOk result (λ all. said_in (G.says grammar.now) left.entry ≡ Ok all.items) }
    ensures fits { IfOk result (λ all. All (G.fits grammar.now) all.items) }
    ensures few { IfOk result (λ all. vec_len all ≤ 1048577) }
    ensures stop { IfErr result (IsStop (said_in (G.says grammar.now) left.entry)) }
{
    let Left {
        mut before,
        mut text,
    } = left;
    let mut all = Vec::new(alloc);
    while !text.is_empty() {
        let line = next_line(text);
        before += 1;
        text = line.rest;
        if is_skipped(line.front) {
            continue;
        }
        match grammar.read(line.front) {
            Some(said) => append(&mut all, said)?,
            None => return Err(ScriptFault::BadLine { line: before }),
        }
    }
    Ok(all)
}
