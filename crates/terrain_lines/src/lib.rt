//! The lines that tell of a terrain, of its store, and of a file that is no store.
#![tactic(auto)]

mod extremes;
mod faults;
mod lines;
#[cfg(test)]
mod tests;

pub use faults::store_fault_line;
pub use lines::{heights_line, packed_line, store_line, terrain_line, tiles_line};
