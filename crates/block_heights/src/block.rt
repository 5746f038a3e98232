use clip_regions::Region;
use rice_residuals::BlockFault;
use thiserror::Error;

/// A block of 8 x 8 cells of a level of a store.
#[derive(Clone, Copy)]
pub struct Block<'a> {
    /// The level, 0 for the finest.
    pub level: u8,
    /// The block's column: its cells' columns are 8 `bx` to 8 `bx` + 7.
    pub bx: i32,
    /// The block's row, alike.
    pub by: i32,
    /// The block's cells in the terrain.
    pub inside: Region,
    /// The store's step in metres, 1 where heights are kept exactly.
    pub step: u8,
    /// What the block's bytes are.
    pub kind: Kind<'a>,
}

/// What the bytes of a block are.
#[derive(Clone, Copy)]
pub enum Kind<'a> {
    /// The block has no cell in the terrain: all its heights are 0.
    Outside,
    /// The heights of its cells, row by row, in two bytes each, the high byte first.
    Plain(&'a [u8]),
    /// The block word of its codes.
    Words(&'a [u8]),
}

/// Why a piece of a block has no heights.
#[derive(Clone, Copy, Debug, PartialEq, Eq, Error)]
pub enum PieceFault {
    /// The block's bytes are no word of its codes, or not as many as its plain heights.
    #[error("{fault}")]
    BadBlock { fault: BlockFault },
    /// The cell in column `i` and row `j` is the first of the piece whose value, in metres, is no height of 16 bits and
    /// not within half a step of one.
    #[error("the value {value} in column {i} and row {j} is out of range")]
    OutOfRange { i: i32, j: i32, value: i32 },
}
