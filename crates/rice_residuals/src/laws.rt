ghost use Rattle.std.specs.Prelude.{◌≡◌, ℕ, ◌≤◌, ◌<◌, ℤ, List, length};
ghost use Rattle.std.specs.List.{All};
ghost use Rattle.rice_residuals.specs.Code.{IsResidual};
ghost use Rattle.rice_residuals.specs.Word.{IsBlockWord, IsWordOf, word_bits, best_parameter, canonical_word};
ghost use Rattle.rice_residuals.specs.Faults.{HasFault};
ghost use Rattle.rice_residuals.specs.declared.fault.BlockFault.{BlockFault};

/// No bytes are words of two lists of one count, whatever the parameters are.
pub fn one_list_of_a_word()
    ensures { (bytes : List ℕ) → (xs : List ℤ) → (ys : List ℤ) → length xs ≡ length ys
        → IsWordOf xs bytes → IsWordOf ys bytes → xs ≡ ys }
{}

/// Bytes that are a word of so many residuals have no fault, and others have no two.
pub fn one_fault_of_other_bytes()
    ensures word { (bytes : List ℕ) → (xs : List ℤ) → (fault : BlockFault)
        → IsWordOf xs bytes → HasFault (length xs) bytes fault → ⊥ }
    ensures first { (bytes : List ℕ) → (count : ℕ) → (fault : BlockFault) → (other : BlockFault)
        → HasFault count bytes fault → HasFault count bytes other → fault ≡ other }
{}

/// The canonical word of residuals is a word of them, by the parameter of fewest bits and the least such.
pub fn canonical_word_is_a_word()
    ensures word { (xs : List ℤ) → All IsResidual xs → IsBlockWord (best_parameter xs) xs (canonical_word xs) }
    ensures fewest { (xs : List ℤ) → (r : ℕ) → r < 16
        → length (word_bits (best_parameter xs) xs) ≤ length (word_bits r xs) }
    ensures least { (xs : List ℤ) → (r : ℕ) → r < best_parameter xs
        → length (word_bits (best_parameter xs) xs) < length (word_bits r xs) }
    ensures shortest { (xs : List ℤ) → (bytes : List ℕ) → IsWordOf xs bytes →
        length (canonical_word xs) ≤ length bytes }
{}

/// The canonical word of up to 64 residuals has at most 401 bytes.
pub fn canonical_words_are_short()
    ensures { (xs : List ℤ) → length xs ≤ 64 → length (canonical_word xs) ≤ 401 }
{}
