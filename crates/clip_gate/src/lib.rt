//! The shared clip: callers on threads of their own share one book, each event at its own turn.
#![tactic(auto)]

mod cells;
mod clip;
mod events;
mod faults;
mod flags;
mod journal;
mod part;
mod pass;
mod reading;
#[cfg(test)]
mod worked;

pub use clip::Clip;
pub use clip_book::{FrameNote, NoMemory};
pub use faults::{CloseFault, JournalFull, PassesOut};
pub use journal::Journal;
pub use pass::Pass;
pub use plan_model::Entry;
