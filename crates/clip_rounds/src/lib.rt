//! Rounds of a flight: passes claim in turn, what they are given is filled while the open frame is drawn, all jobs go
//! back, the frame ends, and what is ripe is published.
//!
//! `specs/Parts.antt` says what a part of a flight does: what a play of its events puts and writes, and where it leads.
//! `specs/Tallies.antt` says what the numbers of a flight are.
#![tactic(auto)]

mod events;
mod flight;
mod rounds;
mod tally;
mod work;

pub use events::{begin, move_to};
pub use flight::Flight;
pub use rounds::fly_round;
pub use tally::Tally;
