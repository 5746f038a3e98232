//! The verdict on a frame, on its mesh and on its text: watertight, with the number of its triangles.
//!
//! The definitions of `specs/` are cited by the laws. No function computes.
#![tactic(auto)]

mod laws;
#[cfg(test)]
mod tests;

pub use laws::{frame_texts_are_judged_watertight, meshes_are_judged_watertight};
