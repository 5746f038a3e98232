//! Why a set of tiles makes no grid.

use terrain_model::Corner;
use thiserror::Error;

/// Why a set of tiles makes no grid.
#[derive(Clone, Copy, Debug, PartialEq, Eq, Error)]
pub enum MosaicFault {
    /// There is no tile.
    #[error("no tile")]
    Empty,
    /// An earlier tile has the corner of this one, the first of which that is true.
    #[error("two tiles at latitude {} and longitude {}", corner.lat, corner.lon)]
    Twice {
        /// The corner, in degrees.
        corner: Corner,
    },
    /// The first tile whose side isn't the first tile's.
    #[error("a tile of side {other} beside one of side {first}")]
    SidesDiffer {
        /// The side of the first tile, in samples.
        first: u32,
        /// The side of the other tile, in samples.
        other: u32,
    },
    /// The rectangle round all tiles has more than 2^26 samples.
    #[error("{samples} samples are too many")]
    TooLarge {
        /// How many samples it has.
        samples: u64,
    },
    /// There is no memory for the grid.
    #[error("out of memory")]
    NoMemory,
}
