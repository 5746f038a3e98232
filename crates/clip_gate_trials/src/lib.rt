//! Trials of a shared clip: passes on threads of their own, and the frames that they draw. Everything here is a test.
#![tactic(auto)]

#[cfg(test)]
mod frames;
#[cfg(test)]
mod full;
#[cfg(test)]
mod journals;
#[cfg(test)]
mod plays;
#[cfg(test)]
mod scope;
#[cfg(test)]
mod settings;
#[cfg(test)]
mod threads;
#[cfg(test)]
mod turns;
#[cfg(test)]
mod worked;
