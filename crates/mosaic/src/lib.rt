//! One grid of heights from a set of HGT tiles.
//!
//! Each tile covers one degree by one degree, and neighbouring tiles share the samples of their common edge. A sample
//! that several tiles cover comes from the northernmost of them, and of these from the westernmost; a sample that no
//! tile covers is 0. Tiles on both sides of the 180th meridian lie at the two ends of the grid.
#![tactic(auto)]

mod extent;
mod fault;
mod joining;
mod painting;

pub use fault::MosaicFault;
pub use joining::join;

#[cfg(test)]
mod tests;
