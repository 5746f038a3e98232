//! Laws of the spelling alone.
ghost use Rattle.std.specs.Prelude.{◌≡◌, ◌^◌, ◌<◌, ◌≤◌, ℕ, ℤ, ◌≤ℤ◌, ◌<ℤ◌, Some, decimal, neg_ℤ, pos};
ghost use Rattle.std.specs.Fmt.{signed_decimal};
ghost use Rattle.number_words.specs.Numbers.{natural_of, whole_of};

/// The text of a number of 64 bits is read as that number, where it is in the range.
pub fn natural_texts_are_read()
    ensures { (low high n : ℕ) → n < 2 ^ 64 → low ≤ n → n ≤ high → natural_of low high (decimal n) ≡ Some n }
{}

/// The same of a number of 64 bits with a sign.
pub fn whole_texts_are_read()
    ensures { (low high n : ℤ) → neg_ℤ (pos (2 ^ 63)) ≤ℤ n → n <ℤ pos (2 ^ 63) → low ≤ℤ n → n ≤ℤ high →
        whole_of low high (signed_decimal n) ≡ Some n }
{}
