//! Torus tiles and pieces.

use clip_regions::Region;

/// A tile of 8 × 8 cells of a level's torus.
#[derive(Clone, Copy, PartialEq, Eq, Debug)]
pub struct TileId {
    /// The tile's column: 0 to 2^K / 8 − 1.
    pub tx: u8,
    /// The tile's row: 0 to 2^K / 8 − 1.
    pub ty: u8,
}

/// A piece of a strip: the cells that it shares with one world block of 8 × 8 cells.
#[derive(Clone, Copy, PartialEq, Eq, Debug)]
pub struct Piece {
    /// The block's column among the blocks: its cells begin at column 8·bx.
    pub bx: i32,
    /// The block's row among the blocks: its cells begin at row 8·by.
    pub by: i32,
    /// The cells of the piece.
    pub cells: Region,
}
