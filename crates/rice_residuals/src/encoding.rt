ghost use Rattle.std.specs.Prelude.{◌≡◌, ℕ, ◌≤◌, ◌<◌, ◌^◌, ◌+◌, ◌-◌, ◌*◌, List, ◌++◌, length, IfOk, OnOk, OnErr};
ghost use Rattle.std.specs.List.{All};
ghost use Rattle.rice_residuals.specs.Code.{IsResidual, long_ones, long_length, folded_limit, code, codes};
ghost use Rattle.rice_residuals.specs.Word.{best_parameter, canonical_word};
ghost use Rattle.rice_residuals.specs.List.{residual_list};

use crate::fault::NoMemory;
use crate::folding::{LONG_LENGTH, LONG_ONES, NUMBER_BITS, fold};
use crate::register::low_of;
use crate::residuals::Residuals;
use crate::writer::BitWriter;
use std::alloc::Global;

// How many bits the code of a folded residual has.
#[inline]
fn code_length(folded: u32, parameter: u8) -> u32
    requires { parameter < 16 }
    ensures length { result ≡ length (code parameter folded) }
    ensures few { result ≤ long_length }
{
    let ones = folded >> parameter;
    if ones < LONG_ONES {
        ones + 1 + u32::from(parameter)
    } else {
        LONG_LENGTH
    }
}

// How many bits the codes of the residuals have together.
fn codes_length(residuals: &[i32], parameter: u8) -> u32
    requires parameter { parameter < 16 }
    requires few { length residuals.now ≤ 64 }
    requires in_range { All IsResidual residuals.now }
    ensures { result ≡ length (codes parameter residuals.now) }
{
    let mut total = 0;
    for value in residuals {
        total += code_length(fold(*value), parameter);
    }
    total
}

// The parameter of fewest bits, the least one on a tie.
fn parameter_of(residuals: &[i32]) -> u8
    requires few { length residuals.now ≤ 64 }
    requires in_range { All IsResidual residuals.now }
    ensures below { result < 16 }
    ensures best { result ≡ best_parameter residuals.now }
{
    let mut best = 0;
    let mut least = codes_length(residuals, 0);
    let count = residuals.len() as u32;
    for parameter in 1..16 {
        // Each code has more bits than its parameter says.
        if count * (u32::from(parameter) + 1) >= least {
            return best;
        }
        let length = codes_length(residuals, parameter);
        if length < least {
            best = parameter;
            least = length;
        }
    }
    best
}

// So many ones and a zero behind them.
#[inline]
fn run_of_ones(ones: u32) -> u32
    requires { ones < long_ones }
    ensures value { result ≡ (2 ^ ones - 1) * 2 }
    ensures below { result < 2 ^ (ones + 1) }
{
    (u32::MAX >> (31 - ones)) - 1
}

// The short form as one number: so many ones, a zero and the low bits.
#[inline]
fn short_form(ones: u32, parameter: u8, low: u32) -> u32
    requires short { ones + parameter < 32 }
    requires low { low < 2 ^ parameter }
    ensures value { result ≡ (2 ^ ones - 1) * 2 * 2 ^ parameter + low }
    ensures below { result < 2 ^ (ones + 1 + parameter) }
{
    (run_of_ones(ones) << parameter) + low
}

// Puts the code of a folded residual.
#[inline]
fn write_code(writer: &mut BitWriter, folded: u32, parameter: u8) -> Result<(), NoMemory>
    requires folded { folded < folded_limit }
    requires parameter { parameter < 16 }
    ensures { OnOk result (writer.new ≡ writer.old ++ code parameter folded) }
{
    let ones = folded >> parameter;
    if ones >= LONG_ONES {
        writer.push(u32::MAX, LONG_ONES as u8)?;
        writer.push(folded, NUMBER_BITS)?;
        return Ok(());
    }
    let low = low_of(u64::from(folded), u32::from(parameter));
    if ones + u32::from(parameter) < 32 {
        writer.push(short_form(ones, parameter, low), ones as u8 + 1 + parameter)?;
        return Ok(());
    }
    writer.push(run_of_ones(ones), ones as u8 + 1)?;
    writer.push(low, parameter)?;
    Ok(())
}

// Puts the codes of residuals, one behind another.
fn write_codes(writer: &mut BitWriter, residuals: &[i32], parameter: u8) -> Result<(), NoMemory>
    requires parameter { parameter < 16 }
    requires in_range { All IsResidual residuals.now }
    ensures { OnOk result (writer.new ≡ writer.old ++ codes parameter residuals.now) }
{
    for value in residuals {
        write_code(writer, fold(*value), parameter)?;
    }
    Ok(())
}

/// Puts the word of fewest bits, by the least parameter on a tie, behind the bytes. Where memory runs out, they stay.
pub fn append_block(alloc: Global, out: &mut Vec<u8>, residuals: &Residuals) -> Result<(), NoMemory>
    ensures ok { OnOk result (out.new.items ≡ out.old.items ++ canonical_word (residual_list residuals.now)) }
    ensures err { OnErr result (out.new.items ≡ out.old.items) }
{
    let word = write_block(alloc, residuals)?;
    if out.extend_from_slice(&word).is_err() {
        return Err(NoMemory);
    }
    Ok(())
}

/// The word of fewest bits, by the least parameter on a tie.
pub fn write_block(alloc: Global, residuals: &Residuals) -> Result<Vec<u8>, NoMemory>
    ensures { IfOk result (λ bytes. bytes.items ≡ canonical_word (residual_list residuals.now)) }
{
    let used = residuals.used();
    let parameter = parameter_of(used);
    let mut writer = BitWriter::new(alloc);
    writer.push(u32::from(parameter), 4)?;
    write_codes(&mut writer, used, parameter)?;
    Ok(writer.finish())
}
