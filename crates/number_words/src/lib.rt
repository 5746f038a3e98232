//! Numbers in words, with one spelling each: as they are printed, so without a plus sign, a leading zero or `-0`.
#![tactic(auto)]

mod bytes;
mod laws;
mod numbers;

pub use bytes::{natural_bytes, whole_bytes, wide_whole_bytes};
pub use laws::{natural_texts_are_read, whole_texts_are_read};
pub use numbers::{natural, whole, wide_whole};

#[cfg(test)]
mod tests;
