//! The terrain engine's program once more, whose stored run names a file that isn't there: it ends with a status that
//! isn't 0.
#![tactic(auto)]

use clipmap_prog::{Ended, run_main};

fn main(rt: HostRuntime) -> Ended {
    run_main(&rt)
}
