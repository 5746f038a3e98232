//! Jobs of a book that are filled from a grid of the book's terrain.
#![tactic(auto)]

mod fills;
mod levels;
#[cfg(test)]
mod tests;

pub use fills::fill_job;
