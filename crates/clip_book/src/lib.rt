//! The book of a terrain: every event of the passes over all levels, with the heights of what is filled.
#![tactic(auto)]

mod answers;
mod book;
mod jobs;
mod laws;
mod patches;
mod tiles;
mod told;
#[cfg(test)]
mod worked;

pub use answers::{Begun, Claimed, Ended, Given, Published};
pub use book::Book;
pub use book_plan::{FrameNote, NoMemory};
pub use jobs::{FilledJob, Job};
pub use laws::read_by_places_are_listed;
pub use plan_model::{Answer, Entry, Event};
pub use told::{
    told_of_begun, told_of_claim, told_of_ended, told_of_given, told_of_job, told_of_published,
};
