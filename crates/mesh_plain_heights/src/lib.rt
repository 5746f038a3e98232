//! Plain functions for the positions, places and heights of a mesh's vertices: short and slow, each of which
//! computes a definition of `mesh_model`.
#![tactic(auto)]

mod heights;
mod places;

pub use heights::{blend_share, border_distance, lower_end, upper_end, vertex_height};
pub use level_frame::blend_width;
pub use places::{Cell, Position, corner_place, place_of, position_of, spacing};

#[cfg(test)]
mod tests;
