//! Laws of windows, strips, pieces and tiles, over the definitions of `plan_model` alone.
//!
//! Each function's contract says what is true of every plan, its statement stands in `specs/`, and its
//! body is empty, or calls the laws from which it follows. `docs/PLAN.md` tells the definitions in prose.
#![tactic(auto)]

mod areas;
mod blocks;
mod growth;
mod marks;
mod needs;
mod sights;

pub use areas::{
    held_regions_have_no_more_cells, hulls_add_strips, pieces_are_no_more_than_cells,
    regions_have_pieces, unfilled_cells_are_the_rest,
};
pub use blocks::{
    finished_and_unfinished_are_all, finished_pieces_are_found, pieces_are_counted,
    pieces_are_meets, pieces_have_cells, pieces_have_different_blocks, pieces_lie_in_blocks,
    pieces_lie_in_the_region, pieces_lie_in_tiles, pieces_of_one_block_are_one,
    windows_have_few_pieces,
};
pub use growth::{
    hulls_are_even_inside, inside_is_held, parts_are_filled_in, strips_are_there_unless_whole,
    strips_lie_in_windows,
};
pub use marks::{tiles_are_met_by_cells, tiles_are_met_by_sides, tiles_met_are_products};
pub use needs::{
    needs_are_monotone, needs_have_cells, needs_lie_in_coarser_windows, needs_lie_in_patches,
};
pub use sights::{actives_are_as_many, actives_lie_in_windows};
