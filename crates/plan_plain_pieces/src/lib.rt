//! What a level lacks, and what is drawn of it, plainly: world blocks and torus tiles, strips and
//! pieces, the need of a piece, and active regions.
//!
//! Each function is short and slow, and its result is a definition of `plan_model`. `plan_plain` stands
//! on them.
#![tactic(auto)]

mod active_regions;
mod blocks;
mod finished;
mod strip_pieces;
mod torus_tiles;
mod window_strips;
#[cfg(test)]
mod worked;

pub use active_regions::{actives, are_near, drawable};
pub use blocks::{
    block_cells, block_of, same_block, same_tile, tile_of, tile_of_cell, tiles_per_side,
    wrapped_place,
};
pub use finished::{finished_with, is_finished, unfinished_of};
pub use strip_pieces::{need, pieces};
pub use torus_tiles::{lies_in, meets_tile, tiles, tiles_met};
pub use window_strips::{current_strip, hull, strips};
