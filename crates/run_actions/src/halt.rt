//! Why the run of a command ends before it is done.

/// Why the run of a command ends before it is done. Nothing more is written then.
#[derive(Clone, Copy)]
pub enum Halt {
    /// A call of the shelf failed.
    ShelfFailed,
    /// A call of the sink failed.
    SinkFailed,
    /// There was no memory.
    NoMemory,
}
