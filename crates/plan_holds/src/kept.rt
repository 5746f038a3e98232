//! What holds at the start, and after each event.

ghost use Rattle.plan_holds.specs.Laws.{KeptAtTheStart, StepsKeep, HistoriesKeep};

use plan_laws::{
    finished_pieces_are_found, pieces_lie_in_blocks, pieces_lie_in_the_region,
    pieces_of_one_block_are_one, tiles_are_met_by_cells,
};
use plan_model::{
    blocks_have_one_tile, pieces_cover_the_region, strips_cover_the_window, strips_grow_rectangles,
    windows_fit_the_torus,
};

/// The state at the start has all that holds between two events.
pub fn kept_at_the_start()
    ensures { KeptAtTheStart }
{}

/// Each event of a pass that is there keeps all of it together.
pub fn kept_by_each_step()
    ensures { StepsKeep }
{
    windows_fit_the_torus();
    blocks_have_one_tile();
    strips_cover_the_window();
    pieces_cover_the_region();
    strips_grow_rectangles();
    pieces_lie_in_the_region();
    pieces_lie_in_blocks();
    pieces_of_one_block_are_one();
    finished_pieces_are_found();
    tiles_are_met_by_cells();
}

/// So it holds after every legal history.
pub fn kept_by_histories()
    ensures { HistoriesKeep }
{
    kept_at_the_start();
    kept_by_each_step();
}
