//! Tiles painted one over another into the rows of a grid.

ghost use Rattle.std.specs.Prelude.{◌≡◌, ◌≤◌, ◌+◌, ◌*◌, ◌^◌, length, vec_len, flat_map, All, IfOk};
ghost use Rattle.std.specs.List.{range_with_len};
ghost use Rattle.std.specs.List.Sorted.{IsPermutation};
ghost use Rattle.std.specs.Ordering.{is_lt};
ghost use Rattle.terrain_model.specs.Mosaic.{comes_before, mosaic_width, mosaic_height};
ghost use Rattle.hgt_tiles.specs.TileView.{placed};
ghost use Rattle.mosaic.specs.Extents.{IsExtent};
ghost use Rattle.mosaic.specs.Painting.{IsPlacedIn, IsInOrder, IsPainted, painted_row, with_part};

use crate::extent::Extent;
use hgt_tiles::HgtTile;
use std::alloc::{AllocError, Global};
use std::cmp::Ordering;

// Does one tile lie north of another, or as far north and west of it?
#[tactic(auto, unfolding(terrain_model::specs::Mosaic::comes_before, hgt_tiles::specs::TileView::placed))]
fn comes_before(tile: &HgtTile, other: &HgtTile) -> bool
    ensures { result ≡ comes_before (placed tile.now) (placed other.now) }
{
    let a = tile.corner();
    let b = other.corner();
    b.lat < a.lat || (!(a.lat < b.lat) && a.lon < b.lon)
}

// The order in which tiles are painted: from the south, and of one latitude from the east.
fn painting_order(tile: &HgtTile, other: &HgtTile) -> Ordering
    ensures { is_lt result ≡ comes_before (placed other.now) (placed tile.now) }
{
    if comes_before(other, tile) {
        Ordering::Less
    } else if comes_before(tile, other) {
        Ordering::Greater
    } else {
        Ordering::Equal
    }
}

// The tiles in the order in which they are painted.
pub(crate) fn sorted_for_painting(mut tiles: Vec<HgtTile>) -> Vec<HgtTile>
    ensures permutation { IsPermutation tiles.items result.items }
    ensures order { IsInOrder result.items }
{
    tiles
        .as_mut_slice()
        .sort_unstable_by(|tile, other| painting_order(tile, other));
    tiles
}

// Writes a part into a row from place `left` on.
fn write_part(row: &mut [i16], left: usize, part: &[i16])
    requires inside { left + length part.now ≤ length row.old }
    ensures length { length row.new ≡ length row.old }
    ensures row { row.new ≡ with_part row.old left part.now }
{
    row[left..left + part.len()].copy_from_slice(part);
}

// Paints row `y` of the grid by one tile, where the tile covers it.
fn paint_tile(row: &mut [i16], extent: &Extent, tile: &HgtTile, y: usize)
    requires placed { IsPlacedIn extent.now tile.now }
    requires width { length row.old ≡ mosaic_width extent.now }
    ensures length { length row.new ≡ length row.old }
    ensures row { IsPainted extent.now y tile.now row.old row.new }
{
    let top = extent.top_of(tile);
    if top <= y && y - top < extent.side() {
        extent.holds_columns_of(tile);
        write_part(row, extent.left_of(tile), tile.row((y - top) as u32));
    }
}

// Paints row `y` of the grid by all tiles, over zeros.
fn paint_row(row: &mut [i16], extent: &Extent, tiles: &[HgtTile], y: usize)
    requires placed { All (IsPlacedIn extent.now) tiles.now }
    requires width { length row.old ≡ mosaic_width extent.now }
    ensures { row.new ≡ painted_row extent.now tiles.now y }
{
    row.fill(0);
    for tile in tiles {
        paint_tile(row, extent, tile, y);
    }
}

// Paints the grid by all tiles, over zeros: each row whole, the rows from the north.
pub(crate) fn paint(
    alloc: Global,
    extent: &Extent,
    tiles: &[HgtTile],
) -> Result<Vec<i16>, AllocError>
    requires placed { All (IsPlacedIn extent.now) tiles.now }
    requires few { mosaic_width extent.now * mosaic_height extent.now ≤ 2 ^ 26 }
    ensures rows { IfOk result (λ heights. heights.items ≡
        flat_map (painted_row extent.now tiles.now) (range_with_len 0 (mosaic_height extent.now))) }
    ensures whole { IfOk result (λ heights. vec_len heights ≡ mosaic_width extent.now * mosaic_height extent.now) }
{
    let width = extent.width() as usize;
    let height = extent.height() as usize;
    let mut heights = Vec::with_capacity(alloc, width * height)?;
    let mut row = vec![in alloc; 0i16; width]?;
    for y in 0..height {
        paint_row(row.as_mut_slice(), extent, tiles, y);
        heights.extend_from_slice(row.as_slice())?;
    }
    Ok(heights)
}
