//! The outside of the program as two traits: a [`Shelf`] of named files and a [`Sink`] that takes
//! what the program prints. [`MemoryShelf`] and [`MemorySink`] keep everything in memory and fail at
//! chosen calls; [`FolderShelf`] and [`StreamSink`] reach the working folder and standard output.
#![tactic(auto)]

mod folder;
mod memory;
mod stream;
#[cfg(test)]
mod tests;
mod traits;

pub use folder::FolderShelf;
pub use memory::{MemoryShelf, MemorySink, NoMemory, are_names_distinct};
pub use stream::StreamSink;
pub use traits::{Fetched, PutFault, Shelf, Sink, SinkFault};
