//! Block words: the residuals of a block in Rice codes, both ways.
//!
//! A word is a parameter of four bits, a code for each residual, and zero bits up to the end of the last byte.
//! Bits are taken from the high end of each byte. The codes are those of Rice, with an escape of 32 ones.
#![tactic(auto)]

mod decoding;
mod encoding;
mod fault;
mod folding;
pub mod laws;
mod reader;
mod register;
mod residuals;
#[cfg(test)]
mod tests;
mod writer;

pub use decoding::read_block;
pub use encoding::{append_block, write_block};
pub use fault::{BlockFault, NoMemory};
pub use folding::{fold, unfold};
pub use reader::BitReader;
pub use residuals::Residuals;
pub use writer::BitWriter;
