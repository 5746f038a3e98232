//! Meshes, and their text as Wavefront OBJ files.
//!
//! A [`Mesh`] keeps vertices, triangles and parts. [`frame_text`] prints one as the text of a frame: a
//! few comment lines at its head, then a `v` line for each vertex and an `f` line for each triangle.
//! [`seen_text`] prints some parts of it, those that a view keeps.
#![tactic(auto)]

mod line;
mod lines;
mod memory;
mod mesh;
mod text;
mod views;

pub use memory::NoMemory;
pub use mesh::Mesh;
pub use mesh_model::{Bounds, Part, PartKind, Vertex};
pub use text::{Header, append_head, append_triangles, append_vertices, frame_text};
pub use views::{Culled, cull, seen_text};

#[cfg(test)]
mod tests;
