//! Laws over the definitions of a store: bytes are one store, or have one first fault, and not both.
#![tactic(auto)]

mod laws;

pub use laws::{fronts_of_like_heights, one_first_fault, one_terrain, stores_of_levels};
