//! Heights, as metres with five digits after the point.

ghost use Rattle.std.specs.Prelude.{◌≡◌, ◌≤◌, ◌<◌, ◌^◌, IfSome};
ghost use Rattle.mesh_lists.specs.Lines.{parts_at};
ghost use Rattle.mesh_lists.specs.Says.{five_of, height_of, size_of};

use crate::cut::{first_part, next_part};
use crate::number::natural;

// The greatest size of a height, in metres.
const METRES: u64 = 32_768;

// The greatest size of a height, in thirty-seconds of a metre.
const SIZE_LIMIT: u32 = 1 << 20;

// Five digits, as the number that they make.
#[tactic(auto, unfolding(crate::specs::Says::five_of))]
fn five_of(digits: &[u8]) -> Option<u32>
    ensures value { result ≡ five_of digits.now }
    ensures small { IfSome result (λ n. n < 100000) }
{
    match digits {
        [a, b, c, d, e] => {
            let number = natural(&[b'1', *a, *b, *c, *d, *e], 100_000, 199_999)?;
            Some(number as u32 - 100_000)
        }
        _ => None,
    }
}

// A size in thirty-seconds of a metre.
#[tactic(auto, unfolding(crate::specs::Says::size_of))]
fn size_of(word: &[u8]) -> Option<u32>
    ensures value { result ≡ size_of (parts_at 46 word.now) }
    ensures high { IfSome result (λ size. size ≤ 2 ^ 20) }
{
    let metres = first_part(word, b'.');
    let digits = next_part(metres.rest, b'.')?;
    if next_part(digits.rest, b'.').is_some() {
        return None;
    }
    let metres = natural(metres.front, 0, METRES)? as u32;
    let number = five_of(digits.front)?;
    let size = 32 * metres + number / 3125;
    if number % 3125 == 0 && size <= SIZE_LIMIT {
        Some(size)
    } else {
        None
    }
}

// A height in thirty-seconds of a metre.
#[tactic(auto, unfolding(crate::specs::Says::height_of))]
pub(crate) fn height_of(word: &[u8]) -> Option<i32>
    ensures value { result ≡ height_of word.now }
{
    match word {
        [] => None,
        [b'-', more @ ..] => {
            let size = size_of(more)?;
            if size == 0 {
                return None;
            }
            Some(-(size as i32))
        }
        _ => {
            let size = size_of(word)?;
            Some(size as i32)
        }
    }
}
