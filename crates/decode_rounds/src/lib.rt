//! Work on a book in rounds: frames are drawn and jobs are filled at once.
//!
//! [`round`] does tasks beside each other, each draw in a thread of its own, and gives their results in order.
//! A thread's start takes as long as some tens of fills, so fills share threads.
#![tactic(auto)]

mod parts;
mod post;
mod rounds;
mod tasks;
#[cfg(test)]
mod tests;

pub use post::{Post, Quiet};
pub use rounds::round;
pub use tasks::{Done, Task};
