//! A flight between two events.

use crate::tally::Tally;
use clip_book::Book;

// The pass that draws the frames of a flight.
pub(crate) const FRAME_PASS: u8 = 15;

/// A flight between two events.
#[derive(Drop)]
pub struct Flight {
    /// The book.
    pub book: Book,
    /// The numbers so far.
    pub tally: Tally,
    /// The text of the latest frame, whose room the next one uses again.
    pub text: Vec<u8>,
}
