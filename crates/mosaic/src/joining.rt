//! Tiles joined into one grid.

ghost use Rattle.std.specs.Prelude.{◌≡◌, ◌⊎◌, ◌≤◌, ◌*◌, ◌^◌, ◌∷◌, [], map, All, IfOk, IfErr, OnOk, Some, None, IsNone, option_map};
ghost use Rattle.std.specs.List.{list_any};
ghost use Rattle.terrain_model.specs.Mosaic.{bounds_of, tiles_terrain, mosaic_width, mosaic_height};
ghost use Rattle.hgt_tiles.specs.TileView.{placed};
ghost use Rattle.mosaic.specs.Faults.{mosaic_fault, twin_after, other_side, same_corner, HasSide};
ghost use Rattle.mosaic.specs.Painting.{IsPlacedIn};

use crate::extent::Extent;
use crate::fault::MosaicFault;
use crate::painting::{paint, sorted_for_painting};
use height_pyramid::Grid;
use hgt_tiles::HgtTile;
use std::alloc::Global;
use terrain_model::Corner;

/// Joins HGT tiles of one side into one grid of heights in metres.
///
/// The grid is the rectangle of degrees round all tiles. Neighbouring tiles share the samples of their edge: a sample
/// comes from the northernmost tile that covers it, and of these from the westernmost, and is 0 where none does. The
/// refusals are judged in the order of `MosaicFault`: no tile, a corner that two tiles have, a side that isn't the
/// first tile's, more than 2^26 samples, no memory. One tile alone gives up its heights, and no copy of them is made.
pub fn join(alloc: Global, mut tiles: Vec<HgtTile>) -> Result<Grid, MosaicFault>
    ensures terrain { IfOk result (λ grid. grid ≡ tiles_terrain (map placed tiles.items)) }
    ensures accepted { OnOk result (mosaic_fault tiles.items ≡ None) }
    ensures fault { IfErr result (λ fault. (fault ≡ MosaicFault.NoMemory) ⊎ (mosaic_fault tiles.items ≡ Some fault)) }
{
    let extent = judge(tiles.as_slice())?;
    if tiles.len() == 1 {
        return Ok(grid_of(tiles.remove(0)));
    }
    let sorted = sorted_for_painting(tiles);
    match paint(alloc, &extent, sorted.as_slice()) {
        Ok(heights) => Ok(Grid::new(extent.width() as u32, extent.height() as u32, heights)),
        Err(_) => Err(MosaicFault::NoMemory),
    }
}

// The grid of one tile alone.
fn grid_of(tile: HgtTile) -> Grid
    ensures { result ≡ tiles_terrain (placed tile ∷ []) }
{
    let side = tile.side();
    Grid::new(side, side, tile.into_heights())
}

// The rectangle round some tiles, where they make a grid.
fn judge(tiles: &[HgtTile]) -> Result<Extent, MosaicFault>
    ensures extent { IfOk result (λ extent. extent ≡ bounds_of (map placed tiles.now)) }
    ensures placed { IfOk result (λ extent. All (IsPlacedIn extent) tiles.now) }
    ensures apart { OnOk result (twin_after [] tiles.now ≡ None) }
    ensures few { IfOk result (λ extent. mosaic_width extent * mosaic_height extent ≤ 2 ^ 26) }
    ensures accepted { OnOk result (mosaic_fault tiles.now ≡ None) }
    ensures fault { IfErr result (λ fault. mosaic_fault tiles.now ≡ Some fault) }
{
    let [first, rest @ ..] = tiles else {
        return Err(MosaicFault::Empty);
    };
    if let Some(corner) = twin(tiles) {
        return Err(MosaicFault::Twice { corner });
    }
    let side = first.side();
    if let Some(other) = other_side(side, tiles) {
        return Err(MosaicFault::SidesDiffer { first: side, other });
    }
    let extent = Extent::around(first, rest);
    let samples = extent.width() * extent.height();
    if samples > 1 << 26 {
        return Err(MosaicFault::TooLarge { samples });
    }
    Ok(extent)
}

// The corner of the first tile that has that of an earlier one.
fn twin(tiles: &[HgtTile]) -> Option<Corner>
    ensures { result ≡ option_map (λ tile. tile.corner) (twin_after [] tiles.now) }
{
    for n in 0..tiles.len() {
        let tile = &tiles[n];
        if is_among(tile, &tiles[..n]) {
            return Some(tile.corner());
        }
    }
    None
}

// Does one of some tiles have the corner of this one?
fn is_among(tile: &HgtTile, tiles: &[HgtTile]) -> bool
    ensures { result ≡ list_any (same_corner tile.now) tiles.now }
{
    tiles.iter().any(|other| is_same_corner(tile, other))
}

// Do two tiles have one corner?
#[tactic(auto, unfolding(crate::specs::Faults::same_corner))]
fn is_same_corner(tile: &HgtTile, other: &HgtTile) -> bool
    ensures { result ≡ same_corner tile.now other.now }
{
    let a = tile.corner();
    let b = other.corner();
    (a.lat <= b.lat && b.lat <= a.lat) && (a.lon <= b.lon && b.lon <= a.lon)
}

// The first side among those of some tiles that isn't this one. Where there is none, all tiles are squares of this
// side.
fn other_side(side: u32, tiles: &[HgtTile]) -> Option<u32>
    ensures value { result ≡ other_side side tiles.now }
    ensures squares { IsNone result → All (HasSide side) tiles.now }
{
    for tile in tiles {
        let other = tile.side();
        if other != side {
            return Some(other);
        }
    }
    None
}
