//! What a terrain is: its samples, its levels, the bytes and the name of an HGT tile.
//!
//! The definitions stand in `specs/` and are cited by the contracts of every crate above. This file
//! has the plain types that they speak of, and laws over the definitions alone.
#![tactic(auto)]

/// The south-west corner of an HGT tile, in whole degrees.
///
/// A tile covers one degree by one degree. South and west are negative: `lat` is -90 to 89 and `lon`
/// is -180 to 179 where the corner comes from a tile's name.
#[derive(Clone, Copy, Debug, PartialEq, Eq)]
pub struct Corner {
    /// Degrees of latitude, positive in the north.
    pub lat: i16,
    /// Degrees of longitude, positive in the east.
    pub lon: i16,
}

mod laws;

pub use laws::{
    coarser_level, finest_level, known_samples_stay, no_void_stays, side_fits, side_found,
    tile_height, tile_is_terrain,
};
