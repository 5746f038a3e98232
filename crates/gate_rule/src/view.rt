//! What one pass knows.

use plan_model::Entry;
use std::collections::LinkedList;
use terrain_store::Shape;

/// What a pass knows of its clip, of itself and of the history. It exists in proofs alone: no value of it is made.
///
/// Numbers of passes, 0 to 15, stand as a list of 16 flags.
pub struct View {
    /// The terrain with its levels.
    pub about: Shape,
    /// K.
    pub size: u8,
    /// The pass's number.
    pub own: u8,
    /// Its own number and those that it took over.
    pub numbers: LinkedList<bool>,
    /// Those that it has left to give.
    pub left: LinkedList<bool>,
    /// The history, the oldest entry first.
    pub seen: LinkedList<Entry>,
    /// The 64 heights of its job's tile, as the claim handed it out.
    pub heights: LinkedList<i16>,
    /// The ticket that it has drawn, counted without end.
    pub ticket: Option<u64>,
    /// Whether it is its turn, so that it has the book.
    pub turn: bool,
    /// In its turn: what the book handed to each pass.
    pub handed: LinkedList<Option<LinkedList<i16>>>,
    /// In its turn: the history of a pass that was joined, and that pass's numbers.
    pub told: LinkedList<Entry>,
    /// The numbers of that pass.
    pub told_of: LinkedList<bool>,
}
