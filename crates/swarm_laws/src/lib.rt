//! What a swarm is asked to do, which histories are whole or cut runs of it, and which frames a history closes:
//! definitions, and laws over them alone.
//!
//! Each function's contract says what is true of every history, its statement stands in `specs/`, and its body is
//! empty. `docs/GATE.md` tells the definitions in prose.
#![tactic(auto)]

mod closed;
mod runs;

pub use closed::frames_are_those_of_passes;
pub use runs::{cut_shares_are_cut_runs, whole_shares_are_runs};
