//! The leading lines of a text that say something of one kind.

ghost use Rattle.std.specs.Prelude.{◌≡◌, ◌+◌, ◌<◌, ◌≤◌, ◌∷◌, ◌++◌, [], ℕ, List, All, Option, IfOk, IfErr, IfSome, OnOk, MatchOption, length, drop};
ghost use Rattle.mesh_lists.specs.Lines.{Follows, LeavesBehind, leading, whole_lines};

use crate::cut::next_line;
use crate::lists::ListsFault;
use std::alloc::Global;

// What a line of some kind says.
pub(crate) trait Grammar<T> {
    // What a line says.
    ghost says: { Self → List ℕ → Option T };

    // What is true of all that lines say.
    ghost fits: { Self → T → Type 0 };

    // What a line without its line feed says, and `None` where it says nothing.
    fn read(&self, line: &[u8]) -> Option<T>
        ensures value { result ≡ says self.now line.now }
        ensures fits { IfSome result (fits self.now) };
}

// What the leading lines say, and the text behind them.
#[derive(Drop)]
pub(crate) struct Leading<'a, T> {
    // What they say, one after the other.
    pub(crate) all: Vec<T>,
    // The text behind them.
    pub(crate) text: &'a [u8],
}

// What the first line says, and the text behind it.
#[derive(Drop)]
pub(crate) struct Said<'a, T> {
    // What it says.
    pub(crate) said: T,
    // The text behind it.
    pub(crate) text: &'a [u8],
}

// What the first line says, where it says something.
pub(crate) fn next_said<'a, T: Drop, G: Grammar<T>>(
    grammar: &G,
    text: &'a [u8],
) -> Option<Said<'a, T>>
    ensures value { MatchOption result (leading (G.says grammar.now) (whole_lines text.now) ≡ [])
        (λ first. leading (G.says grammar.now) (whole_lines text.now)
        ≡ first.said ∷ leading (G.says grammar.now) (whole_lines first.text.now)) }
    ensures fits { IfSome result (λ first. G.fits grammar.now first.said) }
    ensures left { IfSome result (λ first. Follows text.now first.text.now) }
{
    let line = next_line(text)?;
    let said = grammar.read(line.front)?;
    Some(Said {
        said,
        text: line.rest,
    })
}

// Appends what a line says.
pub(crate) fn append<T: Drop>(all: &mut Vec<T>, said: T) -> Result<(), ListsFault>
    ensures ok { OnOk result (all.new.items ≡ all.old.items ++ said ∷ []) }
    ensures err { IfErr result (λ fault. fault ≡ ListsFault.NoMemory) }
{
    match all.push(said) {
        Ok(()) => Ok(()),
        Err(_) => Err(ListsFault::NoMemory),
    }
}

// What the leading lines say, up to the first that says nothing.
pub(crate) fn read_leading<'a, T: Drop, G: Grammar<T>>(
    alloc: Global,
    grammar: &G,
    text: &'a [u8],
) -> Result<Leading<'a, T>, ListsFault>
    ensures said { IfOk result (λ r. r.all.items ≡ leading (G.says grammar.now) (whole_lines text.now)) }
    ensures fits { IfOk result (λ r. All (G.fits grammar.now) r.all.items) }
    ensures left { IfOk result (λ r. LeavesBehind (length r.all.items) text.now r.text.now) }
    ensures err { IfErr result (λ fault. fault ≡ ListsFault.NoMemory) }
{
    let mut text = text;
    let mut all = Vec::new(alloc);
    while !text.is_empty() {
        match next_said(grammar, text) {
            None => return Ok(Leading { all, text }),
            Some(first) => {
                append(&mut all, first.said)?;
                text = first.text;
            }
        }
    }
    Ok(Leading { all, text })
}
