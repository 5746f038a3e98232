//! Division that rounds down, and its remainder.

ghost use Rattle.std.specs.Prelude.{◌≡◌, ℤ, pos, ◌+ℤ◌, ◌*ℤ◌, ◌≤ℤ◌, ◌<ℤ◌, unsigned_abs};
ghost use Rattle.clip_regions.specs.FloorDivision.{floor_div, floor_rem};

/// The quotient of `a` by a positive `b`, rounded down: −1 divided by 2 is −1.
pub fn floor_div(a: i32, b: i32) -> i32
    requires { pos 0 <ℤ b }
    ensures value { result ≡ floor_div a (unsigned_abs b) }
    ensures below { (b *ℤ result) ≤ℤ a }
    ensures above { a <ℤ (b *ℤ result +ℤ b) }
    ensures at_zero_or_more { pos 0 ≤ℤ a → (pos 0 ≤ℤ result) × (result ≤ℤ a) }
    ensures below_zero { a <ℤ pos 0 → (a ≤ℤ result) × (result <ℤ pos 0) }
{
    a.div_euclid(b)
}

/// How far `a` lies above `b` times their quotient rounded down, for a positive `b`: 0 to `b` − 1.
pub fn wrap(a: i32, b: i32) -> i32
    requires { pos 0 <ℤ b }
    ensures value { result ≡ pos (floor_rem a (unsigned_abs b)) }
    ensures low { pos 0 ≤ℤ result }
    ensures high { result <ℤ b }
    ensures rest { a ≡ b *ℤ floor_div a (unsigned_abs b) +ℤ result }
{
    a.rem_euclid(b)
}

#[cfg(test)]
mod tests {
    use super::*;

    #[test]
    fn below_zero(rt: HostRuntime) {
        assert_eq!(rt; (floor_div(-1, 2), wrap(-1, 2)), (-1, 1));
        assert_eq!(rt; (floor_div(-16, 8), wrap(-16, 8)), (-2, 0));
        assert_eq!(rt; (floor_div(23, 8), wrap(23, 8)), (2, 7));
    }
}
