//! What the words of a line say: numbers, places and half-spaces.

ghost use Rattle.std.specs.Prelude.{◌≡◌, ◌<◌, ◌≤◌, ◌∷◌, IfSome};
ghost use Rattle.plan_model.specs.Limits.{IsViewed};
ghost use Rattle.clip_script.specs.Lines.{words_after};
ghost use Rattle.clip_script.specs.Ranges.{IsBetween, IsPlace};
ghost use Rattle.clip_script.specs.Steps.{altitude_of, coordinate_of, one_number, pass_of, place_of, two_numbers};

use crate::cut::{Cut, next_word};
use crate::step::Place;
use number_words::{natural_bytes, whole_bytes};

// The greatest coordinate of a viewer, in samples of the finest level; the least one is its negative.
const VIEWER_LIMIT: u32 = 4_194_304;

// The greatest altitude of a viewer.
const ALTITUDE_LIMIT: u64 = 1_048_576;

// The numbers of a line that has two.
#[derive(Clone, Copy)]
pub(crate) struct Pair {
    // The first.
    pub(crate) first: u64,
    // The second.
    pub(crate) second: u64,
}

// The ranges of two numbers, both ends included.
#[derive(Clone, Copy)]
pub(crate) struct Ranges {
    // The range of the first.
    pub(crate) first: (u64, u64),
    // The range of the second.
    pub(crate) second: (u64, u64),
}

// The last word, as a number from `low` to `high`.
fn last_number(word: Cut<'_>, low: u64, high: u64) -> Option<u64>
    ensures value { result ≡ one_number low high (word.entry.front.now ∷ words_after word.entry.rest.now) }
    ensures range { IfSome result (IsBetween low high) }
{
    match next_word(word.rest) {
        None => natural_bytes(word.front, low, high),
        Some(_) => None,
    }
}

// The one word, as a number from `low` to `high`.
pub(crate) fn one_number(rest: &[u8], low: u64, high: u64) -> Option<u64>
    ensures value { result ≡ one_number low high (words_after rest.now) }
    ensures range { IfSome result (IsBetween low high) }
{
    let word = next_word(rest)?;
    last_number(word, low, high)
}

// The number of a pass.
pub(crate) fn pass_of(rest: &[u8]) -> Option<u8>
    ensures value { result ≡ pass_of (words_after rest.now) }
    ensures range { IfSome result (λ pass. pass < 16) }
{
    let pass = one_number(rest, 0, 15)?;
    Some(pass as u8)
}

// The two words, as numbers in these ranges.
pub(crate) fn two_numbers(rest: &[u8], ranges: Ranges) -> Option<Pair>
    ensures value { result ≡ two_numbers ranges (words_after rest.now) }
    ensures first { IfSome result (λ pair. IsBetween ranges.first.0 ranges.first.1 pair.first) }
    ensures second { IfSome result (λ pair. IsBetween ranges.second.0 ranges.second.1 pair.second) }
{
    let word = next_word(rest)?;
    let first = natural_bytes(word.front, ranges.first.0, ranges.first.1);
    let second = one_number(word.rest, ranges.second.0, ranges.second.1);
    Some(Pair {
        first: first?,
        second: second?,
    })
}

// A coordinate of a viewer.
fn coordinate_of(word: &[u8]) -> Option<i32>
    ensures value { result ≡ coordinate_of word.now }
    ensures range { IfSome result IsViewed }
{
    whole_bytes(word, VIEWER_LIMIT)
}

// An altitude of a viewer, by the words behind its place: 0 where there is none.
fn altitude_of(rest: &[u8]) -> Option<u32>
    ensures value { result ≡ altitude_of (words_after rest.now) }
    ensures range { IfSome result (λ a. a ≤ 1048576) }
{
    match next_word(rest) {
        None => Some(0),
        Some(word) => {
            let altitude = last_number(word, 0, ALTITUDE_LIMIT)?;
            Some(altitude as u32)
        }
    }
}

// The place of a viewer: `X Y`, at altitude 0, or `X Y A`.
#[tactic(auto, unfolding(crate::specs::Steps::place_of))]
pub(crate) fn place_of(rest: &[u8]) -> Option<Place>
    ensures value { result ≡ place_of (words_after rest.now) }
    ensures range { IfSome result IsPlace }
{
    let column = next_word(rest)?;
    let row = next_word(column.rest)?;
    let x = coordinate_of(column.front)?;
    let y = coordinate_of(row.front)?;
    let a = altitude_of(row.rest)?;
    Some(Place { x, y, a })
}
