//! The desk of a run over a terrain: a book whose jobs are filled as they are claimed, frames drawn from it, and the
//! lines that tell of both.
//!
//! `specs/Plays.antt` says what the steps of a play do: which files are put, and which lines are written.
#![tactic(auto)]

mod desk;
mod drawn;
mod lines;
mod means;

pub use decode_workers::Filler;
pub use desk::{Desk, NoMemory};
pub use drawn::{Drawn, draw_alone, draw_seen, draw_whole, print_whole, put_frame, put_numbered};
pub use lines::{event_line, unseen_line, view_line};
pub use means::Means;
