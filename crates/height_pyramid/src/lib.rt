//! A grid of heights, and the heights of its levels.
//!
//! Level 0 of a grid is the grid itself. Each further level takes every second column and row of the
//! one below, so the spacing of level l is 2^l samples, as in nested regular grids (Losasso and Hoppe
//! 2004).
#![tactic(auto)]

mod extremes;
mod grid;

pub use grid::Grid;

#[cfg(test)]
mod tests;
