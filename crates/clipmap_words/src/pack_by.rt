//! The words of `packq`.
ghost use Rattle.std.specs.Prelude.{◌≡◌, ◌≤◌, ◌%◌, map, string_bytes, IfSome};
ghost use Rattle.std.specs.Option.{option_map};
ghost use Rattle.clipmap_words.specs.PackBy.{IsPackByInRange, pack_by_of, pack_by_view, step_of};

use crate::names::{is_inputs, is_name};
use number_words::natural;

/// The words `packq L Q OUT INPUT+`, read.
#[derive(Clone, Copy)]
pub struct PackByWords<'a> {
    /// The number of levels, from 1 to 12.
    pub levels: u8,
    /// The step in metres: odd, from 1 to 255.
    pub step: u8,
    /// The name of the store to write.
    pub out: &'a str,
    /// The names of the files to read.
    pub inputs: &'a [String],
}

// A step: an odd number from 1 to 255 in its one spelling, and `None` at any other word.
fn read_step(word: &str) -> Option<u8>
    ensures value { result ≡ step_of word.now }
    ensures odd { IfSome result (λ step. step % 2 ≡ 1) }
    ensures high { IfSome result (λ step. step ≤ 255) }
{
    let step = natural(word, 1, 255)?;
    if step % 2 != 1 {
        return None;
    }
    Some(step as u8)
}

// The words after `packq`, read. `None` exactly where they aren't well spelled and in range.
#[tactic(auto, unfolding(crate::specs::PackBy::pack_by_of))]
pub(crate) fn read_pack_by<'a>(words: &'a [String]) -> Option<PackByWords<'a>>
    ensures value { option_map pack_by_view result ≡ pack_by_of (map string_bytes words.now) }
    ensures in_range { IfSome result (λ pack. IsPackByInRange (pack_by_view pack)) }
{
    let [levels, step, out, inputs @ ..] = words else {
        return None;
    };
    let levels = natural(levels.as_str(), 1, 12)?;
    let step = read_step(step.as_str())?;
    if !is_name(out.as_str()) || !is_inputs(inputs) {
        return None;
    }
    Some(PackByWords {
        levels: levels as u8,
        step,
        out: out.as_str(),
        inputs,
    })
}
