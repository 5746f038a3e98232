//! Laws of the watertight mesh of a frame: how many triangles go from one vertex to another, in closed
//! form, that each edge is closed, and with the laws of borders, stitches and squares that the mesh is
//! watertight.
//!
//! The definitions of `specs/` are cited by the laws. No function computes.
#![tactic(auto)]

mod laws;

pub use laws::{edges_are_counted, edges_close, meshes_are_watertight};
