//! Predicts the heights of a level from the next coarser one, by four points with one rounding.
//!
//! A finer level is predicted from the coarser one and only the residuals are stored, as in geometry
//! clipmaps (Losasso and Hoppe 2004). The weights and the rounding are this project's own: -1, 9, 9 and
//! -1 sixteenths at the coarser cells one before, at, one after and two after the place. A cell with
//! both coordinates even takes the coarser height unchanged. A cell between two coarser ones takes the
//! weighted sum along its row or column, and a cell in the middle of four takes that of the sixteen
//! round it by the products of both weights, each rounded to the nearest whole metre once, halves up.
#![tactic(auto)]

mod around;
mod block;
mod laws;
mod patch;
mod steps;
mod sums;

pub use around::{Heights, patch_around};
pub use block::{BlockPredictions, predict_block};
pub use laws::{
    brought_heights, code_by_one, code_size, even_residual, predictions, residual_size,
    values_are_near,
};
pub use patch::Patch;
pub use prediction::{predict, residual, restore};
pub use steps::{bring, code_by, value_by};

mod prediction;
#[cfg(test)]
mod tests;
