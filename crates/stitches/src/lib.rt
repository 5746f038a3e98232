//! The stitches of a frame's mesh: triangles that close it along the border of each finer active region,
//! where every second vertex is one that the next coarser level doesn't have; and the laws that the closed
//! mesh is watertight.
#![tactic(auto)]

mod borders;
mod closing;
mod counts;
mod sides;

pub use closing::close;
pub use mesh_laws::{borders_agree, squares_cover, stitches_are_flat};
pub use watertight_laws::{edges_are_counted, edges_close, meshes_are_watertight};
