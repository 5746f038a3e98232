//! The heights of one level on a torus: 2^K × 2^K cells as boxed tiles of 8 × 8, which go out to be
//! written and come home.
//!
//! A cell is kept at its place modulo 2^K on both axes, so a window that moves is refilled in place. To take
//! a tile out or to put it back moves a box and copies no height. A contract sees a `Torus` as the 64
//! heights of each tile that is at home, and a `Tile` as its 64 heights; `specs/Grids.antt` says so.
#![tactic(auto)]

mod laws;
mod tile;
mod torus;
#[cfg(test)]
mod worked;

pub use laws::{cells_stand_in_rows, places_in_tiles_are_places};
pub use tile::Tile;
pub use torus::{NoMemory, Torus};
