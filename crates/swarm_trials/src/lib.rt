//! Swarms whose threads are held up: what no clause says. Everything here is a test.
#![tactic(auto)]

#[cfg(test)]
mod holding;
#[cfg(test)]
mod meeting;
#[cfg(test)]
mod runs;
