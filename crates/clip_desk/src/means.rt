//! What a run works with, which stays the same from its first action to its last.

use decode_workers::Filler;
use std::alloc::Global;
use std::thread::Threads;

/// What a run works with.
#[derive(Clone, Copy)]
pub struct Means<'a, R: Threads + Sync, F: Filler> {
    /// What starts the threads that print a frame.
    pub rt: &'a R,
    pub alloc: Global,
    /// What fills the jobs.
    pub filler: &'a F,
    /// The name of the files.
    pub name: &'a str,
}
