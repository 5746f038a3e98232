//! The text of a frame, made in parts side by side.
//!
//! [`frame_text_beside`] gives the same bytes as `obj_frames::frame_text`. A large frame's lines are cut in halves, and
//! in halves again where there are processors for it; each part is printed by a thread of its own, and then the parts
//! are joined, one after another, each let go at once.
#![tactic(auto)]

mod lines;
mod room;
mod text;
mod texts;

pub use room::{pays, touched};
pub use text::frame_text_beside;

#[cfg(test)]
mod tests;
