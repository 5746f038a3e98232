//! Which heights a book can read.

ghost use Rattle.book_cells.specs.Laws.{ClaimsGiveJobs, DrawnCellsHaveHeights, NeededCellsHaveHeights};

use plan_holds::drawn_cells_are_at_home;
use plan_laws::{
    needs_are_monotone, pieces_have_cells, pieces_lie_in_the_region, tiles_are_met_by_cells,
};
use plan_model::blocks_have_one_tile;

/// What a claim that is answered with a job finds, and that the pass has the job then.
pub fn claims_give_jobs()
    ensures { ClaimsGiveJobs }
{}

/// Each cell that an open frame draws lies in a tile at home, with the terrain's level height.
pub fn drawn_cells_have_heights()
    ensures { DrawnCellsHaveHeights }
{
    blocks_have_one_tile();
    drawn_cells_are_at_home();
}

/// Each coarser cell that a claimed piece needs lies in a tile at home, with the terrain's level height.
pub fn needed_cells_have_heights()
    ensures { NeededCellsHaveHeights }
{
    blocks_have_one_tile();
    needs_are_monotone();
    pieces_have_cells();
    pieces_lie_in_the_region();
    tiles_are_met_by_cells();
}
