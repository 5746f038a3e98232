//! What the mesh of a frame is: its vertices and their heights, its triangles, its parts and its text.
//!
//! The definitions stand in `specs/` and are cited by the contracts of every crate above. This crate
//! has the plain types that they speak of, and laws over the definitions alone.
#![tactic(auto)]

mod laws;
mod shapes;

pub use laws::{
    box_holds, drawn_mesh, dropped_parts_are_unseen, flags_keep_parts, nested_counts, nested_names,
    one_level_counts, one_level_mesh, parts_of_mesh, vertices_apart,
};
pub use shapes::{Bounds, HalfSpace, Part, PartKind, Vertex};
