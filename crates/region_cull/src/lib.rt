//! Which parts of a mesh a view leaves out.
//!
//! A view is up to six half-spaces, such as the sides of what a camera sees.
#![tactic(auto)]

mod half_spaces;
mod view;

pub use half_spaces::{is_outside, kept};
pub use mesh_model::{Bounds, HalfSpace};
pub use view::{HALF_SPACES, View};

#[cfg(test)]
mod tests;
