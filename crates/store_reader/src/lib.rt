//! Reads a store of either version: its header, and the terrain that it stands for, or the first fault.
//!
//! The levels are read one after another from the coarsest, each block once, over the table of one level and the grid
//! of the next coarser one. No table of the whole terrain at every level is made. [`read_heights_beside`] reads a
//! level's blocks in parts, side by side, each into its own rows of the table.
#![tactic(auto)]

mod beside;
mod blocks;
mod header;
mod level;
mod levels;
mod sizes;
mod table;

pub use header::{Header, read_header};
pub use levels::{StoredHeights, read_heights, read_heights_beside};

#[cfg(test)]
mod tests;
