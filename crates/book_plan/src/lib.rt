//! The plan of a book: every event of the passes, over all levels, in place.
#![tactic(auto)]

mod answers;
mod desk;
mod frames;
mod in_use;
mod jobs;
mod levels;
mod moves;
mod offers;
mod passes;
mod plan;
mod slots;
mod viewers;

pub use plan::{BookPlan, FrameNote, NoMemory};

#[cfg(test)]
mod tests;
