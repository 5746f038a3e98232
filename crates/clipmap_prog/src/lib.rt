//! The top calls of the terrain engine: what the words of a command line do over a shelf of files and an output. All
//! commands but one are run by [`clipmap`], and a swarm by [`swarm`](fn@swarm), which may wait.
#![tactic(auto)]

mod check;
mod demo;
mod fault;
mod fly;
mod frame;
mod grounds;
mod info;
mod inputs;
mod output;
mod pack;
mod play;
mod program;
mod reading;
mod run;
mod sources;
mod store_file;
mod stored;
mod swarm_top;
mod swarms;
mod tile_files;
mod top;
mod verdicts;

pub use check::TEXT_LIMIT;
pub use play::SCRIPT_LIMIT;
pub use program::{Ended, run_main, run_program, run_swarm_program};
pub use run_actions::Halt;
pub use store_file::STORE_LIMIT;
pub use swarm_top::swarm;
pub use swarms::CELLS_LIMIT;
pub use tile_files::HGT_LIMIT;
pub use top::clipmap;
