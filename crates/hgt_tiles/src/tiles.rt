//! The bytes of HGT tiles.

ghost use Rattle.std.specs.Prelude.{◌≡◌, ℕ, ◌+◌, ◌*◌, ◌<◌, ◌≤◌, ◌++◌, length, pos, count_by, IfSome, IfOk, IfErr, OnOk, Some, None, slice_range};
ghost use Rattle.std.specs.List.{list_any};
ghost use Rattle.terrain_model.specs.Voids.{is_void, first_known, without_voids};
ghost use Rattle.terrain_model.specs.Tile.{raw_sample, samples_from, side_of_length, tile_terrain, void_count};
ghost use Rattle.hgt_tiles.specs.TileView.{tile_of_bytes, IsTile};
ghost use Rattle.hgt_tiles.specs.Fault.{HasCause};

use byteorder::{BigEndian, ByteOrder};
use std::alloc::{AllocError, Global};
use std::marker::Model;
use terrain_model::{Corner, tile_is_terrain};
use thiserror::Error;

// The sample that marks a place without a height.
const VOID: i16 = -32768;

/// Why a tile can't be read.
#[derive(Clone, Copy, Debug, PartialEq, Eq, Error)]
pub enum TileFault {
    /// The length in bytes isn't that of a square of 3 to 3601 samples a side, two bytes a sample.
    #[error("{length} bytes are no HGT tile")]
    BadLength {
        /// How many bytes there are.
        length: u64,
    },
    /// There is no memory for the heights.
    #[error("out of memory")]
    NoMemory,
}

/// A tile of heights in metres, a square with its south-west corner at whole degrees.
#[derive(Drop)]
pub struct HgtTile {
    corner: Corner,
    side: u32,
    voids: u64,
    heights: Vec<i16>,
}

impl Model for HgtTile {
    ghost use Rattle.hgt_tiles.specs.TileView.{TileView, IsRead};

    ghost Value = { TileView };

    ghost view = { λ t. record {
      corner = t.corner;
      terrain = record { width = t.side; height = t.side; table = t.heights.items };
      voids = t.voids;
    } };

    ghost invariant = { λ t. IsRead (record {
      corner = t.corner;
      terrain = record { width = t.side; height = t.side; table = t.heights.items };
      voids = t.voids;
    }) };
}

impl HgtTile {
    ghost use Rattle.terrain_model.specs.Terrain.{height_at};
    ghost use Rattle.hgt_tiles.specs.TileView.{IsTile, most_voids};

    /// The south-west corner.
    pub fn corner(&self) -> Corner
        ensures { result ≡ self.now.corner }
    {
        self.corner
    }

    /// How many samples a row or a column has, 3 to 3601.
    pub fn side(&self) -> u32
        ensures value { result ≡ self.now.terrain.width }
        ensures tile { IsTile self.now.terrain }
    {
        self.side
    }

    /// How many samples were voids in the file, at most all of the greatest tile's.
    pub fn voids(&self) -> u64
        ensures value { result ≡ self.now.voids }
        ensures few { result ≤ most_voids }
    {
        self.voids
    }

    /// The height in metres at column `x` from the west and row `y` from the north.
    #[tactic(auto, unfolding(terrain_model::specs::Terrain::height_at))]
    pub fn height(&self, x: u32, y: u32) -> i16
        requires column { x < self.now.terrain.width }
        requires row { y < self.now.terrain.height }
        ensures { result ≡ height_at self.now.terrain (pos x) (pos y) }
    {
        self.heights[y as usize * self.side as usize + x as usize]
    }

    /// The heights in metres of row `y` from the north, from west to east.
    pub fn row(&self, y: u32) -> &[i16]
        requires { y < self.now.terrain.height }
        ensures value { result.now ≡
            slice_range self.now.terrain.table (y * self.now.terrain.width) ((y + 1) * self.now.terrain.width) }
        ensures length { length result.now ≡ self.now.terrain.width }
    {
        let first = y as usize * self.side as usize;
        &self.heights[first..first + self.side as usize]
    }

    /// All heights in metres, row by row from the north and each row from west to east.
    pub fn into_heights(self) -> Vec<i16>
        ensures { result.items ≡ self.terrain.table }
    {
        let HgtTile { heights, .. } = self;
        heights
    }
}

// The heights of a tile, and how many of its samples are voids.
#[derive(Drop)]
struct Samples {
    heights: Vec<i16>,
    voids: u64,
}

/// Reads a tile from the bytes of an HGT file, with its south-west corner at `corner`.
///
/// Voids, the samples -32768, are counted, and each takes the height of the nearest sample to its west in
/// its row that is none; where there is none, of the nearest to its east; where the whole row is void, 0. A
/// length that isn't 2 * N * N bytes for a side N of 3 to 3601 is a `BadLength`.
#[tactic(auto, unfolding(crate::specs::TileView::tile_of_bytes, crate::specs::TileView::tile_at))]
pub fn read_tile(alloc: Global, corner: Corner, bytes: &[u8]) -> Result<HgtTile, TileFault>
    ensures tile { IfOk result (λ tile. tile_of_bytes corner bytes.now ≡ Some tile) }
    ensures square { IfOk result (λ tile. IsTile tile.terrain) }
    ensures bad_length { side_of_length (length bytes.now) ≡ None →
        result ≡ Err (TileFault.BadLength (length bytes.now)) }
    ensures fault { IfErr result (HasCause bytes.now) }
{
    let length = bytes.len() as u64;
    let Some(side) = side_of(length) else {
        return Err(TileFault::BadLength { length });
    };
    tile_is_terrain();
    match read_samples(alloc, bytes, side) {
        Ok(samples) => Ok(HgtTile {
            corner,
            side,
            voids: samples.voids,
            heights: samples.heights,
        }),
        Err(_) => Err(TileFault::NoMemory),
    }
}

// The side of a tile of this many bytes, if there is one.
#[tactic(auto, unfolding(terrain_model::specs::Tile::side_of_length, terrain_model::specs::Tile::tile_sides))]
fn side_of(length: u64) -> Option<u32>
    ensures value { result ≡ side_of_length length }
    ensures low { IfSome result (λ side. 3 ≤ side) }
    ensures high { IfSome result (λ side. side ≤ 3601) }
    ensures whole { IfSome result (λ side. 2 * (side * side) ≡ length) }
{
    (3..3602).find(|side: &u32| 2 * u64::from(*side) * u64::from(*side) == length)
}

// Reads `side` rows of `side` samples: their heights with all voids filled, and how many voids there are.
fn read_samples(alloc: Global, bytes: &[u8], side: u32) -> Result<Samples, AllocError>
    requires high { side ≤ 3601 }
    requires whole { length bytes.now ≡ 2 * (side * side) }
    ensures heights { IfOk result (λ s. s.heights.items ≡ (tile_terrain bytes.now side).table) }
    ensures voids { IfOk result (λ s. s.voids ≡ void_count bytes.now side) }
    ensures few_voids { IfOk result (λ s. s.voids ≤ side * side) }
{
    let side = side as usize;
    let mut heights = Vec::with_capacity(alloc, side * side)?;
    let mut row = vec![in alloc; 0i16; side]?;
    let mut voids = 0u64;
    for v in 0..side {
        voids += append_row(bytes, v * side, side, row.as_mut_slice(), &mut heights)?;
    }
    Ok(Samples { heights, voids })
}

// Appends the heights of the row of `side` samples from sample `first` on, with its voids filled, by way of a row of
// that length. Gives how many voids it has: mostly none, and then the samples are the heights.
fn append_row(
    bytes: &[u8],
    first: usize,
    side: usize,
    row: &mut [i16],
    heights: &mut Vec<i16>,
) -> Result<u64, AllocError>
    requires side { side ≤ 3601 }
    requires whole { 2 * (first + side) ≤ length bytes.now }
    requires row { length row.old ≡ side }

    // The row is a row still, and its heights stand behind the others.
    ensures row { length row.new ≡ side }
    ensures heights { OnOk result
        (heights.new.items ≡ heights.old.items ++ without_voids (samples_from bytes.now first side)) }

    // The answer is how many voids it has.
    ensures voids { IfOk result (λ voids. voids ≡ count_by is_void (samples_from bytes.now first side)) }
    ensures few { IfOk result (λ voids. voids ≤ side) }
{
    if read_row(bytes, first, row) {
        return append_filled(bytes, first, side, heights);
    }
    heights.extend_from_slice(row)?;
    Ok(0)
}

// Reads the row of samples from sample `first` on as they stand. Is one of them a void?
fn read_row(bytes: &[u8], first: usize, row: &mut [i16]) -> bool
    requires side { length row.old ≤ 3601 }
    requires whole { 2 * (first + length row.old) ≤ length bytes.now }
    ensures row { row.new ≡ samples_from bytes.now first (length row.old) }
    ensures voids { result ≡ list_any is_void (samples_from bytes.now first (length row.old)) }
{
    let mut has_void = false;
    for n in 0..row.len() {
        let sample = sample_at(bytes, first + n);
        row[n] = sample;
        has_void = has_void | is_void(sample);
    }
    has_void
}

// Appends the heights of the row of `side` samples from sample `first` on, each void filled. Gives how many voids
// it has.
fn append_filled(
    bytes: &[u8],
    first: usize,
    side: usize,
    heights: &mut Vec<i16>,
) -> Result<u64, AllocError>
    requires side { side ≤ 3601 }
    requires whole { 2 * (first + side) ≤ length bytes.now }
    ensures heights { OnOk result
        (heights.new.items ≡ heights.old.items ++ without_voids (samples_from bytes.now first side)) }
    ensures voids { IfOk result (λ voids. voids ≡ count_by is_void (samples_from bytes.now first side)) }
    ensures few { IfOk result (λ voids. voids ≤ side) }
{
    let mut known = first_known(bytes, first, side);
    let mut voids = 0u64;
    for n in 0..side {
        let sample = sample_at(bytes, first + n);
        if is_void(sample) {
            voids += 1;
        } else {
            known = sample;
        }
        heights.push(known)?;
    }
    Ok(voids)
}

// The first of `side` samples from sample `first` on that is no void, and 0 where all are voids.
fn first_known(bytes: &[u8], first: usize, side: usize) -> i16
    requires side { side ≤ 3601 }
    requires whole { 2 * (first + side) ≤ length bytes.now }
    ensures { result ≡ first_known (samples_from bytes.now first side) }
{
    for n in 0..side {
        let sample = sample_at(bytes, first + n);
        if !is_void(sample) {
            return sample;
        }
    }
    0
}

// Sample number `n` of a tile, two bytes, the high byte first.
#[tactic(auto, unfolding(terrain_model::specs::Tile::raw_sample, terrain_model::specs::Tile::signed_pair))]
fn sample_at(bytes: &[u8], n: usize) -> i16
    requires { 2 * n + 1 < length bytes.now }
    ensures { result ≡ raw_sample bytes.now n }
{
    BigEndian::read_i16(&bytes[2 * n..])
}

// Is `sample` a void?
#[tactic(auto, unfolding(terrain_model::specs::Voids::is_void))]
fn is_void(sample: i16) -> bool
    ensures { result ≡ is_void sample }
{
    sample == VOID
}
