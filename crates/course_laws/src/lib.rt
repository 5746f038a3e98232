//! Laws of the files that a course puts: each is the text of a frame whose mesh is watertight.
//!
//! The definitions of `specs/` are cited by the laws. No function computes.
#![tactic(auto)]

mod laws;

pub use laws::puts_are_watertight;
