//! Finds the blocks of a store in its bytes.
//!
//! An index keeps the offset of every 32nd block, through all levels from the coarsest, in at most a twelfth of the
//! bytes: a block with its length has three bytes or more. From there the lengths of at most 31 blocks lead to a block.
#![tactic(auto)]

mod index;
mod laws;
mod sizes;
#[cfg(test)]
mod tests;
mod walk;

pub use index::BlockIndex;
pub use laws::blocks_of_stores;
pub use sizes::{Place, block_total, find_block};
