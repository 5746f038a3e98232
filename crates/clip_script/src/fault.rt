//! Why a script isn't read.

/// The most lines that a script may have.
pub const LINE_LIMIT: u64 = 1_048_577;

/// Why a script isn't read.
#[derive(Clone, Copy, PartialEq, Eq, Debug)]
pub enum ScriptFault {
    /// It has more than [`LINE_LIMIT`] lines.
    TooMany {
        /// How many it has.
        lines: u64,
    },
    /// It has no more lines than that, and this one is the first that isn't allowed at its place.
    BadLine {
        /// The line, counted from 1.
        line: u64,
    },
    /// There was no memory.
    NoMemory,
}
