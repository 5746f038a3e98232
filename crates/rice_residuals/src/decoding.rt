ghost use Rattle.std.specs.Prelude.{◌≡◌, ◌↔◌, ℕ, ◌≤◌, ◌<◌, ◌^◌, ◌+◌, ◌-◌, ◌*◌, ◌/◌, ◌%◌, ℤ, List, ◌++◌, ◌∷◌, true, false, length, replicate, IfOk, IfErr, OnOk, IsOkAnd, Err};
ghost use Rattle.rice_residuals.specs.Bits.{low_bits};
ghost use Rattle.rice_residuals.specs.Code.{long_ones, folded_limit, code, codes};
ghost use Rattle.rice_residuals.specs.Word.{IsBlockWord, IsWordOf};
ghost use Rattle.rice_residuals.specs.List.{residual_list};
ghost use Rattle.rice_residuals.specs.Faults.{HasCodeFault, HasCodesFault, HasEndFault, HasFault, IsPadding};

use crate::fault::BlockFault;
use crate::folding::{FOLDED_LIMIT, LONG_ONES, NUMBER_BITS, unfold};
use crate::reader::BitReader;
use crate::register::joined;
use crate::residuals::Residuals;

// Takes one code of either form, and gives the folded residual.
fn read_either(reader: &mut BitReader<'_>, parameter: u8) -> Result<u32, BlockFault>
    requires { parameter < 16 }
    ensures below { IfOk result (λ u. u < folded_limit) }
    ensures code { IfOk result (λ u. reader.old.left ≡ code parameter u ++ reader.new.left) }
    ensures end { OnOk result (reader.new.place + length reader.new.left ≡ reader.old.place + length reader.old.left) }
    ensures fault { IfErr result (λ fault. HasCodeFault parameter reader.old.place reader.old.left fault) }
{
    let bit = reader.place();
    let Some(ones) = reader.take_ones() else {
        return Err(BlockFault::CutShort { bit: reader.end() });
    };
    if ones == LONG_ONES {
        let Some(long) = reader.take(NUMBER_BITS) else {
            return Err(BlockFault::CutShort { bit: reader.end() });
        };
        if long >> parameter < LONG_ONES {
            return Err(BlockFault::LongForm { bit });
        }
        return Ok(long);
    }
    let Some(low) = reader.take(parameter) else {
        return Err(BlockFault::CutShort { bit: reader.end() });
    };
    let short = joined(ones, parameter, low);
    if short >= FOLDED_LIMIT {
        return Err(BlockFault::TooWide { bit });
    }
    Ok(short)
}

// Takes one code, and gives the folded residual.
#[inline]
fn read_code(reader: &mut BitReader<'_>, parameter: u8) -> Result<u32, BlockFault>
    requires { parameter < 16 }
    ensures below { IfOk result (λ u. u < folded_limit) }
    ensures code { IfOk result (λ u. reader.old.left ≡ code parameter u ++ reader.new.left) }
    ensures end { OnOk result (reader.new.place + length reader.new.left ≡ reader.old.place + length reader.old.left) }
    ensures fault { IfErr result (λ fault. HasCodeFault parameter reader.old.place reader.old.left fault) }
{
    if let Some(short) = reader.take_short(parameter) {
        return Ok(short);
    }
    read_either(reader, parameter)
}

// Takes so many codes.
fn read_codes(reader: &mut BitReader<'_>, parameter: u8, count: u8) -> Result<Residuals, BlockFault>
    requires parameter { parameter < 16 }
    requires count { count ≤ 64 }

    // So many residuals, whose codes were the next bits; or the first fault.
    ensures count { IfOk result (λ found. found.count ≡ count) }
    ensures length { IfOk result (λ found. length (residual_list found) ≡ count) }
    ensures codes { IfOk result (λ found. reader.old.left ≡ codes parameter (residual_list found) ++ reader.new.left) }
    ensures end { OnOk result (reader.new.place + length reader.new.left ≡ reader.old.place + length reader.old.left) }
    ensures fault { IfErr result (λ fault. HasCodesFault parameter count reader.old.place reader.old.left fault) }
{
    let mut found = Residuals::none();
    while found.count < count {
        let code = read_code(reader, parameter)?;
        found.push(unfold(code));
    }
    Ok(found)
}

// How many zeros stand before the first one of `count` bits.
fn zeros_before(bits: u32, count: u32) -> u32
    requires some { 0 < bits }
    requires below { bits < 2 ^ count }
    requires count { count < 8 }
    ensures within { result < count }
    ensures zeros { low_bits count bits ≡ replicate result false ++ true ∷ low_bits (count - result - 1) bits }
{
    bits.leading_zeros() - (32 - count)
}

// Takes the rest of the last begun byte, and sees that it is zero and that no more bytes follow.
fn read_end(reader: &mut BitReader<'_>) -> Result<(), BlockFault>
    requires begun { 0 < reader.old.place }
    requires whole { (reader.old.place + length reader.old.left) % 8 ≡ 0 }
    ensures ok { OnOk result (IsPadding reader.old.left) }
    ensures fault { IfErr result (λ fault. HasEndFault reader.old.place reader.old.left fault) }
{
    let place = reader.place();
    let end = reader.end();
    let padding = (8 - place % 8) % 8;
    let Some(bits) = reader.take(padding as u8) else {
        unreachable!()
    };
    if bits != 0 {
        let bit = place + zeros_before(bits, padding);
        return Err(BlockFault::BadPadding { bit });
    }
    let bytes = (end - reader.place()) / 8;
    if bytes != 0 {
        return Err(BlockFault::Excess { bytes });
    }
    Ok(())
}

// The residuals of a word, or the first fault.
fn read_word(bytes: &[u8], count: u8) -> Result<Residuals, BlockFault>
    requires bytes { length bytes.now < 65536 }
    requires count { count ≤ 64 }
    ensures count { IfOk result (λ found. found.count ≡ count) }
    ensures length { IfOk result (λ found. length (residual_list found) ≡ count) }
    ensures word { IfOk result (λ found. IsWordOf (residual_list found) bytes.now) }
    ensures fault { IfErr result (λ fault. HasFault count bytes.now fault) }
{
    let mut reader = BitReader::new(bytes);
    let Some(parameter) = reader.take(4) else {
        return Err(BlockFault::CutShort { bit: 0 });
    };
    let found = read_codes(&mut reader, parameter as u8, count)?;
    read_end(&mut reader)?;
    Ok(found)
}

/// The residuals of a word of `count` residuals, by any parameter, or the first fault in the order in which bits are
/// taken. At most 2^16 - 1 bytes are read, and no memory is taken.
pub fn read_block(bytes: &[u8], count: u8) -> Result<Residuals, BlockFault>
    requires bytes { length bytes.now < 65536 }
    requires count { count ≤ 64 }

    // Ok comes exactly where the bytes are a word of so many residuals, and gives these.
    ensures count { IfOk result (λ found. found.count ≡ count) }
    ensures length { IfOk result (λ found. length (residual_list found) ≡ count) }
    ensures word { IfOk result (λ found. IsWordOf (residual_list found) bytes.now) }
    ensures accepts { (residuals : List ℤ) → length residuals ≡ count → IsWordOf residuals bytes.now
        → IsOkAnd result (λ found. residual_list found ≡ residuals) }

    // Each fault comes exactly where it is the first one.
    ensures cut_short { (bit : ℕ) → (result ≡ Err (BlockFault.CutShort bit)) ↔
        HasFault count bytes.now (BlockFault.CutShort bit) }
    ensures long_form { (bit : ℕ) → (result ≡ Err (BlockFault.LongForm bit)) ↔
        HasFault count bytes.now (BlockFault.LongForm bit) }
    ensures too_wide { (bit : ℕ) → (result ≡ Err (BlockFault.TooWide bit)) ↔
        HasFault count bytes.now (BlockFault.TooWide bit) }
    ensures bad_padding { (bit : ℕ) → (result ≡ Err (BlockFault.BadPadding bit)) ↔
        HasFault count bytes.now (BlockFault.BadPadding bit) }
    ensures excess { (n : ℕ) → (result ≡ Err (BlockFault.Excess n)) ↔ HasFault count bytes.now (BlockFault.Excess n) }
{
    read_word(bytes, count)
}
