//! A law of the heights that a job is written with: the function does nothing, and its contract is the law.

ghost use Rattle.clip_book.specs.Laws.{ReadByPlaces};

use torus_grid::cells_stand_in_rows;

/// Heights that stand at their places, row by row, are those of the region's cells in their order.
pub fn read_by_places_are_listed()
    ensures { ReadByPlaces }
{
    cells_stand_in_rows();
}
