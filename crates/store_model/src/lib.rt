//! What a store is: which bytes stand for a terrain, exactly or within a step, and which fault other bytes have first.
//!
//! The definitions stand in `specs/` and are cited by the contracts of the crates above. This file has the plain types
//! that they speak of, and `laws` what holds over the definitions alone.
#![tactic(auto)]

mod fault;
pub mod laws;

pub use fault::{Field, StoreFault};
