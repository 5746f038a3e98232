//! Reads SRTM HGT tiles: the corner that a tile's name gives, and the heights that its bytes give.
//!
//! An HGT file is a square of signed 16-bit big-endian samples in metres, row by row from north to
//! south and each row from west to east, with no header. Its name says where its south-west corner is,
//! as `N45E006.hgt`.
#![tactic(auto)]

mod names;
mod tiles;

pub use names::{BadName, read_name};
pub use terrain_model::Corner;
pub use tiles::{HgtTile, TileFault, read_tile};

#[cfg(test)]
mod tests;
