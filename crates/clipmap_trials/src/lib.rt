//! Trials of the whole program: faulty words, failing calls, and input that is cut or changed. Everything here is a
//! test.
#![tactic(auto)]

#[cfg(test)]
mod calls;
#[cfg(test)]
mod changes;
#[cfg(test)]
mod plays;
#[cfg(test)]
mod scripts;
#[cfg(test)]
mod stores;
#[cfg(test)]
mod texts;
#[cfg(test)]
mod tiles;
#[cfg(test)]
mod trial;
#[cfg(test)]
mod words;
