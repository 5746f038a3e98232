//! Laws over the definitions alone: each function does nothing, and its contract is the law.

ghost use Rattle.terrain_model.specs.Laws.{TileIsTerrain, TileHeight, FinestLevel, CoarserLevel, SideFits, SideFound, NoVoidStays, KnownStays};

/// The bytes of a tile of 1 to 3601 samples a side make a terrain.
pub fn tile_is_terrain()
    ensures { TileIsTerrain }
{}

/// The height at column x and row y of a tile is the one that row y has at place x once its voids are filled.
pub fn tile_height()
    ensures { TileHeight }
{}

/// What stands in the place of a void is no void.
pub fn no_void_stays()
    ensures { NoVoidStays }
{}

/// A sample that is no void stays as it is.
pub fn known_samples_stay()
    ensures { KnownStays }
{}

/// Level 0 is the terrain itself.
pub fn finest_level()
    ensures { FinestLevel }
{}

/// A coarser level takes the samples of the finer one at even places unchanged.
pub fn coarser_level()
    ensures { CoarserLevel }
{}

/// A side that a length gives is from 3 to 3601, and its samples fill the length.
pub fn side_fits()
    ensures { SideFits }
{}

/// The length that the samples of a side from 3 to 3601 fill gives that side.
pub fn side_found()
    ensures { SideFound }
{}
