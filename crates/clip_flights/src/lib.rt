//! Flights over a terrain: a script of moves, frames and settles, done in rounds in which frames are drawn and jobs are
//! filled at once.
//!
//! What a flight puts and writes is what a play of its events does. `specs/Flights.antt` says so, and what the demo's
//! line tells of a flight.
#![tactic(auto)]

mod demos;
mod flying;
mod nobody;
mod settling;

pub use clip_rounds::Tally;
pub use demos::demo;
pub use flying::fly;
