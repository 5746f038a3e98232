//! The demo: a terrain and a flight over it, made from one number.
//!
//! All of it is drawn from one linear congruential generator with the multiplier and the increment of Knuth's MMIX:
//! first a lattice of heights, then the roughness of each sample, then the moves of the flight.
#![tactic(auto)]

mod demo;
mod flight;
mod generator;
mod lattice;
mod samples;

pub use demo::{Demo, NoMemory, demo_of};

#[cfg(test)]
mod tests;
