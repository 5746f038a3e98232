//! Laws of the frames of a book: each has a watertight mesh, and a claim is answered Busy only for an open frame.
//!
//! The definitions of `specs/` are cited by the laws. No function computes.
#![tactic(auto)]

mod laws;

pub use laws::{busy_claims_wait_for_frames, open_frames_are_watertight};
