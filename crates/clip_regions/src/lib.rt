//! Rectangles of cells, by inclusive corners, and division that rounds down.
//!
//! A region stands for its set of cells: each call says so in its contract, beside the corners that
//! it gives. No call refuses, and none takes memory.
#![tactic(auto)]

mod division;
mod region;

pub use division::{floor_div, wrap};
pub use region::Region;
