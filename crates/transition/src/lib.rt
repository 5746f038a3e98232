//! The transition between two levels: near the border of its active region a level's heights go over into
//! those of the next coarser level, so that the two meet without a crack (Losasso and Hoppe 2004).
//!
//! No call refuses, and none takes memory.
#![tactic(auto)]

mod blend;
mod coarser;

pub use blend::{blended, is_blended};
pub use coarser::ends;

#[cfg(test)]
mod tests;
