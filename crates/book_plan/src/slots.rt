//! The pieces of a strip that are finished or not.

use plan_model::Piece;

/// A piece of a level's current strip, and whether it is finished.
#[derive(Clone, Copy, PartialEq, Eq, Debug)]
pub struct Slot {
    /// The piece.
    pub piece: Piece,
    /// Whether it is finished.
    pub finished: bool,
}
