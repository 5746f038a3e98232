//! Frames over a grid: the active regions of whole windows, and their mesh with the heights of a table.
#![tactic(auto)]

mod grid_heights;
mod mesh;
mod windows;

pub use grid_heights::GridHeights;
pub use mesh::grid_mesh;
pub use windows::{Viewer, whole_regions};

#[cfg(test)]
mod tests;
