//! Numbers read from the bytes of a word.

ghost use Rattle.std.specs.Prelude.{◌≡◌, ℕ, ◌<◌, ◌≤◌, ◌^◌, pos, neg_ℤ, ◌≤ℤ◌, IfSome, IsTrue, decimal, length, slice_index};
ghost use Rattle.std.specs.Char.{digit_value};
ghost use Rattle.std.specs.Fmt.{signed_decimal};
ghost use Rattle.number_words.specs.Numbers.{natural_of, whole_of};

use number_words::{natural_bytes, natural_texts_are_read, whole_bytes, whole_texts_are_read};

// What a digit stands for.
fn digit_of(b: u8) -> Option<u32>
    ensures value { IfSome result (λ digit. digit ≡ digit_value b) }
    ensures small { IfSome result (λ digit. digit < 10) }
{
    if b < b'0' || b'9' < b {
        None
    } else {
        Some(u32::from(b - b'0'))
    }
}

// Whether a word isn't empty and, unless it is `0`, doesn't begin with a zero.
fn is_plain(word: &[u8]) -> bool
    ensures some { IsTrue result → 0 < length word.now }
    ensures zero { IsTrue result → slice_index word.now 0 ≡ 48 → length word.now ≡ 1 }
{
    match word {
        [] => false,
        [_] => true,
        [first, ..] => *first != b'0',
    }
}

// The number of a word of at most nine digits, in its one spelling. Other words have none here.
fn short_number(word: &[u8]) -> Option<u32>
    ensures text { IfSome result (λ n. word.now ≡ decimal n) }
    ensures small { IfSome result (λ n. n < 1000000000) }
{
    if !is_plain(word) {
        return None;
    }
    let mut number = 0;
    for b in word {
        let digit = match digit_of(*b) {
            Some(digit) => digit,
            None => return None,
        };
        if number > 99_999_999 {
            return None;
        }
        number = 10 * number + digit;
    }
    Some(number)
}

// A number from `low` to `high` in its one spelling. Short words, nearly all there are, take one pass.
pub(crate) fn natural(word: &[u8], low: u64, high: u64) -> Option<u64>
    ensures value { result ≡ natural_of low high word.now }
    ensures low { IfSome result (λ number. low ≤ number) }
    ensures high { IfSome result (λ number. number ≤ high) }
{
    natural_texts_are_read();
    match short_number(word) {
        Some(number) => {
            let number = u64::from(number);
            if low <= number && number <= high {
                Some(number)
            } else {
                natural_bytes(word, low, high)
            }
        }
        None => natural_bytes(word, low, high),
    }
}

// The number of a word of at most nine digits with a sign, in its one spelling. Other words have none here.
fn short_whole(word: &[u8]) -> Option<i32>
    ensures text { IfSome result (λ n. word.now ≡ signed_decimal n) }
    ensures low { IfSome result (λ n. neg_ℤ (pos 1000000000) ≤ℤ n) }
    ensures high { IfSome result (λ n. n ≤ℤ pos 1000000000) }
{
    match word {
        [b'-', size @ ..] => match short_number(size) {
            Some(0) => None,
            Some(size) => Some(-(size as i32)),
            None => None,
        },
        _ => match short_number(word) {
            Some(size) => Some(size as i32),
            None => None,
        },
    }
}

// A number with a sign, at most `limit` away from zero, in its one spelling.
pub(crate) fn whole(word: &[u8], limit: u32) -> Option<i32>
    requires { limit < 2 ^ 31 }
    ensures value { result ≡ whole_of (neg_ℤ (pos limit)) (pos limit) word.now }
    ensures low { IfSome result (λ number. neg_ℤ (pos limit) ≤ℤ number) }
    ensures high { IfSome result (λ number. number ≤ℤ pos limit) }
{
    whole_texts_are_read();
    match short_whole(word) {
        Some(number) => {
            if number.unsigned_abs() <= limit {
                Some(number)
            } else {
                whole_bytes(word, limit)
            }
        }
        None => whole_bytes(word, limit),
    }
}
