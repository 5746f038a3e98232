//! What an event adds to the cells that are done and to the frames that are open.

ghost use Rattle.plan_holds.specs.Changes.{StepsFillCells, StepsBeginFrames, DrawnCellsAtHome};

use plan_laws::{
    finished_pieces_are_found, pieces_lie_in_blocks, pieces_lie_in_the_region,
    pieces_of_one_block_are_one, tiles_are_met_by_cells,
};
use plan_model::{
    actives_are_filled, blocks_have_one_tile, pieces_cover_the_region, strips_cover_the_window,
    strips_grow_rectangles, windows_fit_the_torus,
};

/// A cell that is filled or finished after an event was so before, or lies in the job that the event gave
/// back.
pub fn steps_fill_cells()
    ensures { StepsFillCells }
{
    windows_fit_the_torus();
    blocks_have_one_tile();
    strips_cover_the_window();
    pieces_cover_the_region();
    strips_grow_rectangles();
    pieces_lie_in_the_region();
    pieces_lie_in_blocks();
    pieces_of_one_block_are_one();
    finished_pieces_are_found();
    tiles_are_met_by_cells();
}

/// A frame that is open after an event was open before, or the event began it over filled cells.
pub fn steps_begin_frames()
    ensures { StepsBeginFrames }
{
    actives_are_filled();
}

/// Each cell that an open frame draws lies in a pinned tile, which no pass holds.
pub fn drawn_cells_are_at_home()
    ensures { DrawnCellsAtHome }
{
    tiles_are_met_by_cells();
}
