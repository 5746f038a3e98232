//! A terrain in its packed store.
//!
//! A `Store` has the bytes of a store of either version, and stands for one terrain: clauses see the terrain, of which
//! no table is kept. A `Shape` names that terrain with its number of levels to whoever works on it.
#![tactic(auto)]

mod packing;
mod reading;
mod shape;
mod store;
#[cfg(test)]
mod tests;

pub use block_heights::{Block, Kind};
pub use packing::{pack, pack_by};
pub use reading::{read_store, read_store_beside};
pub use rice_residuals::NoMemory;
pub use shape::Shape;
pub use store::Store;
pub use store_model::{Field, StoreFault};
