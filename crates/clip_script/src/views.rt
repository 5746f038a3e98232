//! Where a play script asks for a view.

ghost use Rattle.std.specs.Prelude.{◌≡◌};
ghost use Rattle.clip_script.specs.Views.{asks_view, view_line};

use crate::cut::{first_word, next_line};

// Whether a line asks for a view.
#[tactic(auto, unfolding(crate::specs::Views::asks_view))]
fn asks_view(line: &[u8]) -> bool
    ensures value { result ≡ asks_view line.now }
{
    let name = first_word(line).front;
    name == b"see".as_slice() || name == b"endseen".as_slice()
}

/// The number, counted from 1, of the first line of a script that asks for a view, by `see` or `endseen`. Where none
/// does, it is one more than there are lines.
pub fn view_line(bytes: &[u8]) -> u64
    ensures value { result ≡ view_line bytes.now }
{
    let mut text = bytes;
    let mut number = 1;
    while !text.is_empty() {
        let line = next_line(text);
        if asks_view(line.front) {
            return number;
        }
        text = line.rest;
        number += 1;
    }
    number
}
