//! A swarm: workers, renderers and a mover run freely over one clip, each on a thread of its own.
//!
//! [`run`] gives the journal of what came of it, and the text of each frame that it closed. Which history comes of
//! several threads isn't known before. Where no thread can be had, the activities go on one after another, with the
//! same promise.
#![tactic(auto)]

mod acting;
mod crew;
mod drawing;
mod frame;
mod gathering;
mod passes;
mod running;
#[cfg(test)]
mod tests;
mod working;

pub use frame::SwarmFrame;
pub use obj_frames::NoMemory;
pub use running::{SwarmRun, run};
