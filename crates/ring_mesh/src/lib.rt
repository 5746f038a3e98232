//! The rings of a frame's mesh: its vertices, and the squares of each level outside the finer one.
#![tactic(auto)]

mod assembly;
mod beside;
mod bounds;
mod faces;
mod groups;
mod heights;
mod laws;
mod places;
mod sizes;
mod squares;
mod vertices;

pub use assembly::rings;
pub use beside::rings_beside;
pub use bounds::bounds_of;
pub use faces::{Faces, add_part};
pub use heights::Heights;
pub use laws::parts_add_up;
pub use places::{corner, next_ring, no_ring, place_in};
pub use vertices::vertex_count;
