//! Who is told of the tasks of a run.

/// Is told as each task begins and ends, by the thread that does it.
pub trait Post {
    /// Task `task` begins. In a round its number is its place among the tasks, from 0.
    fn begun(&self, task: usize);

    /// Task `task` ends.
    fn ended(&self, task: usize);
}

/// Takes no notice.
#[derive(Clone, Copy, PartialEq, Eq, Debug)]
pub struct Quiet;

impl Post for Quiet {
    fn begun(&self, _task: usize) {}

    fn ended(&self, _task: usize) {}
}
