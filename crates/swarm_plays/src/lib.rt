//! The history of a swarm as a play script: definitions, and laws over them alone.
//!
//! Each function's contract says what is true of every history, its statement stands in `specs/`, and its body is
//! empty.
#![tactic(auto)]

mod laws;

pub use laws::{journals_are_play_scripts, plays_put_what_histories_close};
