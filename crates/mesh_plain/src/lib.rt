//! A plain program for the mesh of a frame: short and slow functions, each of which computes a definition
//! of `mesh_model` on small inputs, for tests to compare with.
#![tactic(auto)]

mod bounds;
mod cells;
mod counts;
mod frames;
mod meshes;
mod parts;
mod region_parts;
mod rings;
mod square_parts;
mod stitch_parts;
mod stitches;
mod triangles;
mod vertices;
mod whole_texts;

pub use bounds::{bounds_of, greatest, least, vertices_of};
pub use cells::region_cells;
pub use counts::{few_triangles, few_vertices};
pub use frames::are_drawn;
pub use mesh_plain_heights::{
    Cell, Position, blend_share, blend_width, border_distance, corner_place, lower_end, place_of,
    position_of, spacing, upper_end, vertex_height,
};
pub use mesh_plain_texts::{Head, frame_text, is_kept, seen_text};
pub use meshes::{PlainMesh, listed_parts, mesh, mesh_of_parts, part_at};
pub use parts::PlainPart;
pub use region_parts::parts_of_regions;
pub use rings::{hole, listed_vertices};
pub use stitches::stitches_along;
pub use triangles::{block_triangles, square_triangles};
pub use vertices::mesh_vertices;
pub use whole_texts::{kept_text, whole_text};

#[cfg(test)]
mod mesh_tests;
#[cfg(test)]
mod tests;
