//! The rectangle of degrees round a set of tiles.

ghost use Rattle.std.specs.Prelude.{◌≡◌, ◌+◌, ◌*◌, ◌^◌, ◌<◌, ◌≤◌, ◌∷◌, ◌≤ℤ◌, map};
ghost use Rattle.std.specs.Int.{int_gap};
ghost use Rattle.terrain_model.specs.Mosaic.{samples_across};

use hgt_tiles::HgtTile;
use std::marker::Model;

// The least rectangle of degrees round a set of tiles, by their corners, and the side of each tile in samples.
#[derive(Drop)]
pub(crate) struct Extent {
    west: i16,
    east: i16,
    south: i16,
    north: i16,
    side: u32,
}

impl Model for Extent {
    ghost use Rattle.terrain_model.specs.Mosaic.{Bounds};
    ghost use Rattle.mosaic.specs.Extents.{IsExtent};

    ghost Value = { Bounds };

    ghost view = { λ e. record { west = e.west; east = e.east; south = e.south; north = e.north; side = e.side } };

    ghost invariant = { λ e. IsExtent (record {
      west = e.west;
      east = e.east;
      south = e.south;
      north = e.north;
      side = e.side;
    }) };
}

impl Extent {
    ghost use Rattle.terrain_model.specs.Mosaic.{bounds_of, mosaic_width, mosaic_height, left_of, top_of};
    ghost use Rattle.hgt_tiles.specs.TileView.{placed};
    ghost use Rattle.mosaic.specs.Extents.{extent_of_one, widened, IsExtent};
    ghost use Rattle.mosaic.specs.Painting.{IsPlacedIn};

    // The rectangle of one tile.
    #[tactic(auto, unfolding(crate::specs::Extents::extent_of_one))]
    fn of_one(tile: &HgtTile) -> Extent
        ensures value { result ≡ extent_of_one tile.now }
        ensures extent { IsExtent result }
    {
        let corner = tile.corner();
        Extent {
            west: corner.lon,
            east: corner.lon,
            south: corner.lat,
            north: corner.lat,
            side: tile.side(),
        }
    }

    // The rectangle widened so that it holds another tile.
    #[tactic(auto, unfolding(crate::specs::Extents::widened))]
    fn widened(&self, tile: &HgtTile) -> Extent
        ensures value { result ≡ widened self.now tile.now }
        ensures extent { IsExtent result }
    {
        let corner = tile.corner();
        Extent {
            west: self.west.min(corner.lon),
            east: self.east.max(corner.lon),
            south: self.south.min(corner.lat),
            north: self.north.max(corner.lat),
            side: self.side,
        }
    }

    // The rectangle round a first tile and the rest.
    pub(crate) fn around(first: &HgtTile, rest: &[HgtTile]) -> Extent
        ensures value { result ≡ bounds_of (map placed (first.now ∷ rest.now)) }
        ensures extent { IsExtent result }
    {
        let mut extent = Extent::of_one(first);
        for tile in rest {
            extent = extent.widened(tile);
        }
        extent
    }

    // The side of each tile, in samples.
    pub(crate) fn side(&self) -> usize
        ensures value { result ≡ self.now.side }
        ensures extent { IsExtent self.now }
    {
        self.side as usize
    }

    // How many samples a row of the rectangle has.
    #[tactic(auto, unfolding(terrain_model::specs::Mosaic::mosaic_width, terrain_model::specs::Mosaic::samples_across))]
    pub(crate) fn width(&self) -> u64
        ensures value { result ≡ mosaic_width self.now }
        ensures some { 1 ≤ result }
        ensures few { result < 2 ^ 28 }
    {
        samples_across(self.side, self.west, self.east)
    }

    // How many rows of samples the rectangle has.
    #[tactic(auto, unfolding(terrain_model::specs::Mosaic::mosaic_height, terrain_model::specs::Mosaic::samples_across))]
    pub(crate) fn height(&self) -> u64
        ensures value { result ≡ mosaic_height self.now }
        ensures some { 1 ≤ result }
        ensures few { result < 2 ^ 28 }
    {
        samples_across(self.side, self.south, self.north)
    }

    // The first column of the rectangle that a tile covers.
    #[tactic(auto, unfolding(terrain_model::specs::Mosaic::left_of, hgt_tiles::specs::TileView::placed))]
    pub(crate) fn left_of(&self, tile: &HgtTile) -> usize
        requires { IsPlacedIn self.now tile.now }
        ensures { result ≡ left_of self.now (placed tile.now) }
    {
        degrees_apart(self.west, tile.corner().lon) * (self.side as usize - 1)
    }

    // The columns that a tile covers lie in the rectangle.
    pub(crate) fn holds_columns_of(&self, tile: &HgtTile)
        requires { IsPlacedIn self.now tile.now }
        ensures { left_of self.now (placed tile.now) + self.now.side ≤ mosaic_width self.now }
    {
        let _side = self.side();
    }

    // The first row of the rectangle that a tile covers.
    #[tactic(auto, unfolding(terrain_model::specs::Mosaic::top_of, hgt_tiles::specs::TileView::placed))]
    pub(crate) fn top_of(&self, tile: &HgtTile) -> usize
        requires { IsPlacedIn self.now tile.now }
        ensures { result ≡ top_of self.now (placed tile.now) }
    {
        degrees_apart(tile.corner().lat, self.north) * (self.side as usize - 1)
    }
}

// How many degrees one number is above another.
fn degrees_apart(low: i16, high: i16) -> usize
    requires { low ≤ℤ high }
    ensures value { result ≡ int_gap low high }
    ensures few { result < 2 ^ 16 }
{
    (i32::from(high) - i32::from(low)) as usize
}

// How many samples a number of degrees has on an axis.
#[tactic(auto, unfolding(terrain_model::specs::Mosaic::samples_across))]
fn samples_across(side: u32, low: i16, high: i16) -> u64
    requires degrees { low ≤ℤ high }
    requires side_low { 3 ≤ side }
    requires side_high { side ≤ 3601 }
    ensures value { result ≡ samples_across side low high }
    ensures few { result < 2 ^ 28 }
    ensures some { 1 ≤ result }
{
    (degrees_apart(low, high) as u64 + 1) * (u64::from(side) - 1) + 1
}
