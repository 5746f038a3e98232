//! Laws of how many cells pieces, filled regions and strips have.

ghost use Rattle.plan_laws.specs.Areas.{RegionsHavePieces, PiecesAreNoMoreThanCells, HeldHaveNoMoreCells};
ghost use Rattle.plan_laws.specs.Areas.{HullsAddStrips, UnfilledCells};

/// A region of some cells has a piece.
pub fn regions_have_pieces()
    ensures { RegionsHavePieces }
{}

/// A region has no more pieces than cells.
pub fn pieces_are_no_more_than_cells()
    ensures { PiecesAreNoMoreThanCells }
{}

/// A region has no more cells than one that holds it.
pub fn held_regions_have_no_more_cells()
    ensures { HeldHaveNoMoreCells }
{}

/// A filled region that grows by its current strip has the cells of both.
pub fn hulls_add_strips()
    ensures { HullsAddStrips }
{}

/// The cells of a level's window that are filled and those that aren't are the window's.
pub fn unfilled_cells_are_the_rest()
    ensures { UnfilledCells }
{}
