//! The heights of a piece of a store's block, from the block's bytes and a patch of coarser heights.
//!
//! This is the one place where a block is decoded: for a reader of stores, and for whoever fills pieces of a level. No
//! call takes memory.
#![tactic(auto)]

mod block;
mod codes;
mod pieces;
mod rows;

pub use block::{Block, Kind, PieceFault};
pub use codes::is_coded;
pub use pieces::piece_heights;

#[cfg(test)]
mod tests;
