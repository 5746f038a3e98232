//! Laws of places and of written cells: each function does nothing, and its contract is the law.

ghost use Rattle.torus_grid.specs.Laws.{PlacesInTiles, CellsInRows};

/// Two cells of one tile that have one place in it have one wrapped place.
pub fn places_in_tiles_are_places()
    ensures { PlacesInTiles }
{}

/// Where heights are listed for the cells of a region, row by row, each cell's stands at its place among
/// them.
pub fn cells_stand_in_rows()
    ensures { CellsInRows }
{}
