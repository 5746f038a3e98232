ghost use Rattle.std.specs.Prelude.{◌≡◌, ℕ, ◌≤◌, ◌<◌, ◌+◌, ◌-◌, ◌*◌, ◌^◌, ◌↔◌, true, false, ◌∷◌, ◌++◌, length, drop, replicate, IsNone, IfSome, IfNone, OnSome};
ghost use Rattle.rice_residuals.specs.Bits.{low_bits, bits_of_bytes};
ghost use Rattle.rice_residuals.specs.Code.{long_ones, folded_limit, code};
ghost use Rattle.rice_residuals.specs.Faults.{form, low_length};

use crate::folding::{FEW_ONES, LONG_ONES};
use crate::register::{Register, joined, low_of, ready};
use std::marker::Model;

/// Takes bits from bytes, the high end of each byte first. Contracts see the place, which is the number of bits that
/// were taken, and the list of the bits that are left.
#[derive(Drop)]
pub struct BitReader<'a> {
    bytes: &'a [u8],
    register: Register,
}

impl<'a> Model for BitReader<'a> {
    ghost use Rattle.rice_residuals.specs.Reading.{Reading, reading, IsSound};

    ghost Value = { Reading };

    ghost view = { λ a. reading a.bytes.now a.register };

    ghost invariant = { λ a. IsSound a.bytes.now a.register };
}

impl BitReader<'_> {
    /// A reader of at most 2^20 bytes, at the first bit.
    pub fn new(bytes: &[u8]) -> BitReader<'_>
        requires { length bytes.now ≤ 1048576 }
        ensures place { result.place ≡ 0 }
        ensures left { result.left ≡ bits_of_bytes bytes.now }
    {
        BitReader {
            bytes,
            register: Register {
                next: 0,
                bits: 0,
                held: 0,
            },
        }
    }

    /// The next `count` bits as a number, or none where fewer are left, and then nothing is taken.
    #[inline]
    pub fn take(&mut self, count: u8) -> Option<u32>
        requires { count ≤ 32 }
        ensures none { IsNone result ↔ (length self.old.left < count) }
        ensures unchanged { IfNone result (self.new ≡ self.old) }

        ensures bits { IfSome result (λ bits. self.old.left ≡ low_bits count bits ++ self.new.left) }
        ensures below { IfSome result (λ bits. bits < 2 ^ count) }
        ensures place { OnSome result (self.new.place ≡ self.old.place + count) }
    {
        let count = u32::from(count);
        let register = ready(self.bytes, self.register, count);
        if register.held < count {
            return None;
        }
        let held = register.held - count;
        self.register = Register { held, ..register };
        Some(low_of(register.bits >> held, count))
    }

    /// The number of bits that were taken.
    #[inline]
    pub fn place(&self) -> u32
        ensures { result ≡ self.now.place }
    {
        (self.register.next * 8) as u32 - self.register.held
    }

    // The number of bits that the bytes have.
    #[inline]
    pub(crate) fn end(&self) -> u32
        ensures { result ≡ self.now.place + length self.now.left }
    {
        (self.bytes.len() * 8) as u32
    }

    // Takes ones up to a zero, which is taken too, but no more than 32 of them. None where the bits end before.
    #[inline]
    pub(crate) fn take_ones(&mut self) -> Option<u32>
        ensures none { IfNone result (self.old.left ≡ replicate (length self.old.left) true) }
        ensures few { IfNone result (length self.old.left < long_ones) }
        ensures unchanged { IfNone result (self.new ≡ self.old) }

        ensures ones { IfSome result (λ ones. ones ≤ long_ones) }
        ensures bits { IfSome result (λ ones. self.old.left ≡ form ones self.new.left) }
        ensures end { IfSome result (λ _. self.new.place + length self.new.left ≡
            self.old.place + length self.old.left) }
    {
        let register = ready(self.bytes, self.register, LONG_ONES);
        let ones = ones_of(register.bits, register.held);
        if ones < LONG_ONES {
            if ones == register.held {
                return None;
            }
            let held = register.held - ones - 1;
            self.register = Register { held, ..register };
            return Some(ones);
        }
        let held = register.held - LONG_ONES;
        self.register = Register { held, ..register };
        Some(LONG_ONES)
    }

    // Takes a code of fewer than eight ones, and gives the folded residual. None where the register doesn't hold such a
    // code whole.
    #[inline]
    pub(crate) fn take_short(&mut self, parameter: u8) -> Option<u32>
        requires { parameter < 16 }
        ensures unchanged { IfNone result (self.new ≡ self.old) }

        ensures below { IfSome result (λ u. u < folded_limit) }
        ensures code { IfSome result (λ u. self.old.left ≡ code parameter u ++ self.new.left) }
        ensures end { IfSome result (λ _. self.new.place + length self.new.left ≡
            self.old.place + length self.old.left) }
    {
        let register = ready(self.bytes, self.register, LONG_ONES);
        let ones = ones_of(register.bits, register.held);
        let count = u32::from(parameter);
        if ones >= FEW_ONES || register.held < ones + 1 + count {
            return None;
        }
        let held = register.held - ones - 1 - count;
        self.register = Register { held, ..register };
        Some(joined(ones, parameter, low_of(register.bits >> held, count)))
    }
}

// The ones at the head of the low `held` bits, at most 32.
#[inline]
fn ones_of(bits: u64, held: u32) -> u32
    requires { held < 64 }
    ensures few { result ≤ long_ones }
    ensures held { result ≤ held }
    ensures run { low_bits held bits ≡ replicate result true ++ low_bits (held - result) bits }
    ensures zero { result < long_ones → result < held → low_bits (held - result) bits ≡
        false ∷ low_bits (held - result - 1) bits }
{
    if held == 0 {
        return 0;
    }
    (bits << (64 - held)).leading_ones().min(LONG_ONES)
}
