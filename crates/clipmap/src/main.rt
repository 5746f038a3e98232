//! The terrain engine's program: it does the command that its words are, over the working folder and standard output,
//! and ends with the command's status.
#![tactic(auto)]

use clipmap_prog::{Ended, run_main};

fn main(rt: HostRuntime) -> Ended {
    run_main(&rt)
}
