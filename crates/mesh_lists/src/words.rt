//! The words of a line, and the numbers that they say.

ghost use Rattle.std.specs.Prelude.{◌≡◌, ◌∷◌, ◌≤◌, ◌<◌, ◌^◌, ◌-◌, pos, neg_ℤ, ◌≤ℤ◌, IfSome, MatchOption, [], List, ℕ};
ghost use Rattle.std.specs.Option.{option_map};
ghost use Rattle.mesh_lists.specs.Lines.{parts_after, words};
ghost use Rattle.number_words.specs.Numbers.{natural_of};
ghost use Rattle.mesh_lists.specs.Says.{behind, coordinate_of, count_of, one_number};

use crate::cut::{Cut, first_part, next_part};
use crate::number::{natural, whole};

// The greatest coordinate; the least one is its negative.
const COORDINATE_LIMIT: u32 = 1 << 24;

// The first word of a line, and what stands behind it, with the space before it.
pub(crate) fn first_word(line: &[u8]) -> Cut<'_>
    ensures value { words line.now ≡ result.front.now ∷ parts_after 32 result.rest.now }
{
    first_part(line, b' ')
}

// The next word behind a word, where there is one.
pub(crate) fn next_word(rest: &[u8]) -> Option<Cut<'_>>
    ensures value { MatchOption result (parts_after 32 rest.now ≡ []) (λ cut. parts_after 32 rest.now
        ≡ cut.front.now ∷ parts_after 32 cut.rest.now) }
{
    next_part(rest, b' ')
}

// What stands behind a word that opens a line.
#[tactic(auto, unfolding(crate::specs::Says::behind))]
pub(crate) fn behind_first<'a>(line: &'a [u8], word: &[u8]) -> Option<&'a [u8]>
    ensures value { option_map (λ rest. parts_after 32 rest.now) result ≡ behind word.now (words line.now) }
{
    let first = first_word(line);
    if first.front == word {
        Some(first.rest)
    } else {
        None
    }
}

// What stands behind a word that comes next.
#[tactic(auto, unfolding(crate::specs::Says::behind))]
pub(crate) fn behind<'a>(rest: &'a [u8], word: &[u8]) -> Option<&'a [u8]>
    ensures value { option_map (λ rest. parts_after 32 rest.now) result ≡ behind word.now (parts_after 32 rest.now) }
{
    let next = next_word(rest)?;
    if next.front == word {
        Some(next.rest)
    } else {
        None
    }
}

// The one word, as a number in a range.
#[tactic(auto, unfolding(crate::specs::Says::one_number))]
pub(crate) fn one_number(rest: &[u8], low: u64, high: u64) -> Option<u64>
    ensures value { result ≡ one_number low high (parts_after 32 rest.now) }
{
    let word = next_word(rest)?;
    match next_word(word.rest) {
        None => natural(word.front, low, high),
        Some(_) => None,
    }
}

// A number of 64 bits.
pub(crate) fn count_of(word: &[u8]) -> Option<u64>
    ensures value { result ≡ count_of word.now }
{
    natural(word, 0, u64::MAX)
}

// A coordinate, in samples.
pub(crate) fn coordinate_of(word: &[u8]) -> Option<i32>
    ensures value { result ≡ coordinate_of word.now }
    ensures low { IfSome result (λ n. neg_ℤ (pos (2 ^ 24)) ≤ℤ n) }
    ensures high { IfSome result (λ n. n ≤ℤ pos (2 ^ 24)) }
{
    whole(word, COORDINATE_LIMIT)
}

// The number of a vertex of so many, counted from 1.
pub(crate) fn number_of(word: &[u8], count: u32) -> Option<u32>
    ensures value { result ≡ natural_of 1 count word.now }
    ensures low { IfSome result (λ n. 1 ≤ n) }
    ensures high { IfSome result (λ n. n ≤ count) }
{
    let number = natural(word, 1, u64::from(count))?;
    Some(number as u32)
}
