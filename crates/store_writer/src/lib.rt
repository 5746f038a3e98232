//! Writes a terrain as the bytes of its canonical store, exactly or within a step.
//!
//! A store has the coarsest level's heights as they are, and every finer level as codes over the level before it
//! (`store_model` has the definition). Blocks are written one by one into one buffer: a block's patch of coarser
//! heights is made by one call, and its word goes behind its length. By a step above 1 the coarser heights are the
//! restored ones, of which a table of one level is kept.
#![tactic(auto)]

mod block;
mod bytes;
mod cells;
mod coarser;
mod level;
mod store;
mod table;
#[cfg(test)]
mod tests;

pub use rice_residuals::NoMemory;
pub use store::{canonical_bytes, canonical_bytes_by};
