//! Laws of the torus tiles that a region meets.

ghost use Rattle.plan_laws.specs.Tiles.{TilesMetByCells, TilesMetBySides, TilesMetAreProducts};

use crate::blocks::{pieces_have_cells, pieces_lie_in_the_region, pieces_lie_in_tiles};
use plan_model::pieces_cover_the_region;

/// A region meets a tile exactly where some cell of it has that tile.
pub fn tiles_are_met_by_cells()
    ensures { TilesMetByCells }
{
    pieces_cover_the_region();
    pieces_have_cells();
    pieces_lie_in_the_region();
    pieces_lie_in_tiles();
}

/// A region of some cells meets a tile where it meets the tile's column and its row.
pub fn tiles_are_met_by_sides()
    ensures { TilesMetBySides }
{}

/// The tiles that a region of some cells meets are those of the columns and of the rows that it meets.
pub fn tiles_met_are_products()
    ensures { TilesMetAreProducts }
{}
