//! What is put and written of a swarm: the file of each frame that it closed, by rising number, and then its history,
//! as a play script.
#![tactic(auto)]

mod frames;
mod journal;
mod run;

pub use journal::{NoMemory, journal_text};
pub use run::run_swarm;
