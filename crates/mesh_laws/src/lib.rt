//! Laws of the mesh of nested active regions, for fast code: where each vertex stands in the list, in
//! closed form, and what triangles this gives.
//!
//! The definitions of `specs/` are cited by the contracts of the crates that make meshes. This crate has
//! the plain type that they speak of, and laws over the definitions alone.
#![tactic(auto)]

mod laws;
mod ring;

pub use laws::{
    actives_are_in_reach, borders_agree, ends_are_active, heights_are_small, holes_are_in_regions,
    meshes_are_small, parts_have_ring_squares, parts_have_triangles, ring_parts_are_square_parts,
    ring_stitches_are_stitch_parts, rings_are_linked, rings_have_rows, squares_cover,
    stitches_are_flat,
};
pub use ring::Ring;
