//! The verdict on a frame's text: no crack, no hole, no tilted stitch, or the first fault.
//!
//! `docs/MESH.md` says what is judged. A text has at most 2^28 bytes.
#![tactic(auto)]

mod edges;
mod faces;
mod runs;
mod verdict;

pub use verdict::{Verdict, check_text, lists_verdict};

#[cfg(test)]
mod tests;
