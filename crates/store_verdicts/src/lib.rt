//! Laws over the definitions of a store: any bytes have a verdict.
#![tactic(auto)]

mod laws;

pub use laws::{one_verdict, store_or_fault, word_or_fault};
