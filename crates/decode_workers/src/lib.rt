//! What works on a book between its events: jobs are filled from a store, and frames are drawn.
//!
//! To fill a job takes one block of a store and no memory. To draw takes the book alone, or copies of a frame's
//! heights, and memory in proportion to what is drawn. None of these calls changes a book, so they may go on beside
//! each other.
#![tactic(auto)]

mod book_heights;
mod copies;
mod copy_heights;
mod drawing;
mod fill;
mod filler;
mod laws;
#[cfg(test)]
mod worked;

pub use copies::LevelCopies;
pub use copy_heights::draw_copies;
pub use drawing::{draw, draw_beside};
pub use fill::fill_piece;
pub use filler::Filler;
pub use laws::filled_jobs_go_back;
pub use obj_frames::NoMemory;
pub use ring_mesh::vertex_count;
