//! The regions of one level that open frames show, and the tiles that they pin.
//!
//! Each tile has the count of the regions that meet it. So the first frame that pins a tile is found at
//! once where there is none, and by a look at the regions of the 16 passes otherwise.
#![tactic(auto)]

mod pin;
mod pins;
#[cfg(test)]
mod worked;

pub use pin::Pin;
pub use pins::{NoMemory, Pins};
