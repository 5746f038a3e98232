//! Strips and pieces: what a level's window lacks, in the order in which it is filled, the coarser cells
//! that it needs, and the torus tiles in which it lies.
//!
//! Each call takes constant time and no memory, and so does each step of `Pieces`. Its result is a
//! definition of `plan_model`; `docs/PLAN.md` tells them in prose.
#![tactic(auto)]

mod needs;
mod piece_walk;
mod strip_list;
mod strip_pieces;
mod tiles;
mod window_strips;
#[cfg(test)]
mod worked;

pub use needs::need;
pub use piece_walk::Pieces;
pub use plan_model::{Piece, TileId};
pub use strip_list::Strips;
pub use strip_pieces::{piece_count, pieces, regions_in_windows_are_planned};
pub use tiles::{meets_tile, tile_of, tiles_per_side};
pub use window_strips::{current_strip, hull, strips};
