//! Plain functions for the text of a frame and for the parts that a viewer drops: short and slow, each of
//! which computes a definition of `mesh_model`.
#![tactic(auto)]

mod half_spaces;
mod lines;
mod seen;
mod texts;

pub use half_spaces::is_kept;
pub use seen::seen_text;
pub use texts::{Head, frame_text};

#[cfg(test)]
mod tests;
