//! Trials of runs over memory: worked examples, a filler that counts its calls, and random scripts beside the plain
//! programs. Everything here is a test.
#![tactic(auto)]

#[cfg(test)]
mod counted;
#[cfg(test)]
mod flights;
#[cfg(test)]
mod mosaics;
#[cfg(test)]
mod plain;
#[cfg(test)]
mod random;
#[cfg(test)]
mod runs;
#[cfg(test)]
mod worked;
