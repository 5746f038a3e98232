//! What a frame's text says: its lists are those that it was printed from.
//!
//! The definitions of `specs/` are cited by the laws. No function computes.
#![tactic(auto)]

mod laws;

pub use laws::{frames_say_their_mesh, texts_say_their_lists};
