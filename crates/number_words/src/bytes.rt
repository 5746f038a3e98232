//! Words that may be any bytes to numbers.
ghost use Rattle.std.specs.Prelude.{◌≡◌, ◌<◌, ◌≤◌, ◌^◌, pos, neg_ℤ, ◌≤ℤ◌, IfSome};
ghost use Rattle.number_words.specs.Numbers.{natural_of, whole_of};

use crate::numbers::{natural, whole, wide_whole};
use std::str;

/// What [`natural`] gives of a word that needn't be text.
pub fn natural_bytes(word: &[u8], low: u64, high: u64) -> Option<u64>
    ensures value { result ≡ natural_of low high word.now }
    ensures low { IfSome result (λ number. low ≤ number) }
    ensures high { IfSome result (λ number. number ≤ high) }
{
    let Ok(text) = str::from_utf8(word) else {
        return None;
    };
    natural(text, low, high)
}

/// What [`whole`] gives of a word that needn't be text.
pub fn whole_bytes(word: &[u8], limit: u32) -> Option<i32>
    requires { limit < 2 ^ 31 }
    ensures value { result ≡ whole_of (neg_ℤ (pos limit)) (pos limit) word.now }
    ensures low { IfSome result (λ number. neg_ℤ (pos limit) ≤ℤ number) }
    ensures high { IfSome result (λ number. number ≤ℤ pos limit) }
{
    let Ok(text) = str::from_utf8(word) else {
        return None;
    };
    whole(text, limit)
}

/// What [`wide_whole`] gives of a word that needn't be text.
pub fn wide_whole_bytes(word: &[u8], limit: u64) -> Option<i64>
    requires { limit < 2 ^ 63 }
    ensures value { result ≡ whole_of (neg_ℤ (pos limit)) (pos limit) word.now }
    ensures low { IfSome result (λ number. neg_ℤ (pos limit) ≤ℤ number) }
    ensures high { IfSome result (λ number. number ≤ℤ pos limit) }
{
    let Ok(text) = str::from_utf8(word) else {
        return None;
    };
    wide_whole(text, limit)
}
