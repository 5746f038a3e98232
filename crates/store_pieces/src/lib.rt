//! That decoding a block of a store gives the heights of its level.
//!
//! `Store::block` and `piece_heights` each have their own contract. Here they are put together: over a patch that
//! predicts as the next coarser level does, no piece of a store's block is refused, and its heights are those of the
//! level.
#![tactic(auto)]

mod laws;
mod pieces;
#[cfg(test)]
mod tests;

pub use laws::pieces_of_blocks;
pub use pieces::stored_piece;
