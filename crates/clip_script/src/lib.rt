//! Scripts, which say what is asked of a book, and the lines of a log, which say what was answered.
//!
//! Three kinds of script are read: play scripts, fly scripts and swarm scripts. `docs/SCRIPTS.md` has every line.
#![tactic(auto)]

mod cut;
mod fault;
mod fly;
mod laws;
mod lines;
mod numbers;
mod play;
mod sizes;
mod spaces;
mod step;
mod swarm;
mod text;
mod views;
mod write;

pub use fault::{LINE_LIMIT, ScriptFault};
pub use fly::{FlyScript, read_fly};
pub use laws::{views_are_asked_for_by_lines, written_steps_are_lines, written_steps_are_read};
pub use plan_model::FlyLine;
pub use play::{PlayScript, read_play};
pub use region_cull::{HalfSpace, View};
pub use step::Step;
pub use swarm::{SwarmScript, read_swarm};
pub use views::view_line;
pub use write::{NoMemory, write_log, write_step};

#[cfg(test)]
mod tests;
