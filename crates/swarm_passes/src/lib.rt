//! What each pass of a swarm has done of its share, as its own history tells, and what all have done together.
//!
//! Definitions, and laws over them alone: a pass that took all others over knows a whole run or a cut one.
#![tactic(auto)]

mod joined;

pub use joined::gathered_passes_are_runs;
