//! The run of a course over a terrain: frames are drawn from a book that is filled as it goes, put on a shelf, and told
//! of in lines of an output.
//!
//! A run is handed whatever fills jobs, and no table of heights: all that it can read of the terrain are the heights
//! that its book keeps.
#![tactic(auto)]

mod course;
mod play;
mod settling;
mod single;
mod statuses;

pub use course::{Course, run_course};
pub use decode_workers::Filler;
pub use statuses::ended_by;
