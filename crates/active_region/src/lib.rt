//! The active regions of a frame: what is drawn of each level.
//!
//! The coarsest level shows its filled region, and each finer level what of its filled region lies a
//! margin inside the coarser active region. A level below the finest in use shows nothing. No call
//! refuses, and none takes memory.
#![tactic(auto)]

mod drawing;
mod list;

pub use drawing::actives;
pub use list::Actives;

#[cfg(test)]
mod tests;
