//! Words to numbers.
ghost use Rattle.std.specs.Prelude.{◌≡◌, ◌<◌, ◌≤◌, ◌^◌, pos, neg_ℤ, ◌≤ℤ◌, IfSome};
ghost use Rattle.number_words.specs.Numbers.{natural_of, whole_of};

use itoa::Buffer;

/// A whole number from `low` to `high` in its one spelling, and `None` at any other word.
pub fn natural(word: &str, low: u64, high: u64) -> Option<u64>
    ensures value { result ≡ natural_of low high word.now }
    ensures low { IfSome result (λ number. low ≤ number) }
    ensures high { IfSome result (λ number. number ≤ high) }
{
    let Ok(number) = word.parse::<u64>() else {
        return None;
    };
    if number < low || high < number {
        return None;
    }
    let mut buffer = Buffer::new();
    if buffer.format(number) != word {
        return None;
    }
    Some(number)
}

/// A number with a sign, at most `limit` away from zero, in its one spelling, and `None` at any other word.
pub fn whole(word: &str, limit: u32) -> Option<i32>
    requires { limit < 2 ^ 31 }
    ensures value { result ≡ whole_of (neg_ℤ (pos limit)) (pos limit) word.now }
    ensures low { IfSome result (λ number. neg_ℤ (pos limit) ≤ℤ number) }
    ensures high { IfSome result (λ number. number ≤ℤ pos limit) }
{
    let Ok(number) = word.parse::<i32>() else {
        return None;
    };
    if limit < number.unsigned_abs() {
        return None;
    }
    let mut buffer = Buffer::new();
    if buffer.format(number) != word {
        return None;
    }
    Some(number)
}

/// The same for numbers of 64 bits.
pub fn wide_whole(word: &str, limit: u64) -> Option<i64>
    requires { limit < 2 ^ 63 }
    ensures value { result ≡ whole_of (neg_ℤ (pos limit)) (pos limit) word.now }
    ensures low { IfSome result (λ number. neg_ℤ (pos limit) ≤ℤ number) }
    ensures high { IfSome result (λ number. number ≤ℤ pos limit) }
{
    let Ok(number) = word.parse::<i64>() else {
        return None;
    };
    if limit < number.unsigned_abs() {
        return None;
    }
    let mut buffer = Buffer::new();
    if buffer.format(number) != word {
        return None;
    }
    Some(number)
}
