//! The words of a command line: which command they are, with its numbers, names and inputs. A swarm is read by a call
//! of its own, [`read_swarm`], as it is run by one.
//!
//! Numbers have one spelling each (`0`, or a digit 1 to 9 and further digits, with `-` before a negative one), names
//! have 1 to 200 bytes and no zero byte, and inputs are one store or 1 to 64 HGT tiles. Anything else is no command.
#![tactic(auto)]

mod check;
mod command;
mod demo;
mod fly;
mod frame;
mod info;
mod names;
mod numbers;
mod pack;
mod pack_by;
mod play;
mod swarm;
#[cfg(test)]
mod tests;

pub use check::CheckWords;
pub use command::{Command, read_words};
pub use demo::DemoWords;
pub use fly::FlyWords;
pub use frame::FrameWords;
pub use info::InfoWords;
pub use names::{INPUTS_LIMIT, NAME_LIMIT, is_store_name};
pub use numbers::VIEWER_LIMIT;
pub use pack::PackWords;
pub use pack_by::PackByWords;
pub use play::PlayWords;
pub use swarm::{SwarmWords, is_swarm, read_swarm};
