//! Worked examples of the whole program, over a shelf and a sink in memory: what no clause says. Everything here is a
//! test.
#![tactic(auto)]

#[cfg(test)]
mod checks;
#[cfg(test)]
mod demos;
#[cfg(test)]
mod flights;
#[cfg(test)]
mod frames;
#[cfg(test)]
mod levels;
#[cfg(test)]
mod plays;
#[cfg(test)]
mod stores;
#[cfg(test)]
mod swarms;
#[cfg(test)]
mod tiles;
