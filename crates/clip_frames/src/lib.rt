//! Frames of a shared clip, each read in several turns: every level in a turn of its own, while other passes go on.
//!
//! What is read, drawn and printed is exactly the frame as it was begun.
#![tactic(auto)]

mod drawing;
mod laws;
mod reading;

pub use drawing::{draw_frame, print_frame};
pub use laws::frames_are_those_of_their_beginning;
pub use obj_frames::{Mesh, NoMemory};
pub use reading::read_frame;
