//! Numbers in words.
ghost use Rattle.std.specs.Prelude.{◌≡◌, pos, neg_ℤ, ◌≤ℤ◌, IfSome};
ghost use Rattle.clipmap_words.specs.Numbers.{coordinate_of};

use number_words::whole;

/// The greatest coordinate of a viewer, in samples of the finest level; the least one is its negative.
pub const VIEWER_LIMIT: i32 = 4_194_304;

// A coordinate of a viewer in its one spelling, and `None` at any other word.
pub(crate) fn coordinate(word: &str) -> Option<i32>
    ensures value { result ≡ coordinate_of word.now }
    ensures low { IfSome result (λ number. neg_ℤ (pos 4194304) ≤ℤ number) }
    ensures high { IfSome result (λ number. number ≤ℤ pos 4194304) }
{
    whole(word, VIEWER_LIMIT as u32)
}
