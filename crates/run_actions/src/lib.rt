//! What a program does to the outside, action by action: it puts files and writes pieces. The words by which a
//! contract says what a run did of a list of actions stand in `specs/`.
#![tactic(auto)]

mod calls;
mod halt;

pub use calls::{put, write};
pub use halt::Halt;
