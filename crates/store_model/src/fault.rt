use rice_residuals::BlockFault;
use thiserror::Error;

/// A field of a store's header.
#[derive(Clone, Copy, Debug, PartialEq, Eq, Error)]
pub enum Field {
    /// The width is 0 or above 2^26.
    #[error("the width")]
    Width,
    /// The height is 0 or above 2^26.
    #[error("the height")]
    Height,
    /// Width and height together have more than 2^26 samples.
    #[error("the number of samples")]
    Samples,
    /// The number of levels is 0 or above 12.
    #[error("the number of levels")]
    Levels,
    /// The step is even.
    #[error("the step")]
    Step,
}

/// The first fault of bytes that are no store, in the order in which they are read. Offsets count bytes from 0.
#[derive(Clone, Copy, Debug, PartialEq, Eq, Error)]
pub enum StoreFault {
    /// The first bytes, up to four, are not those of `GCT1` or `GCT2`.
    #[error("no store")]
    BadMagic,
    /// A field of the header is out of its range.
    #[error("{field} is out of range")]
    BadHeader {
        field: Field,
    },
    /// The bytes end before the header, or before a block or its length, is whole: `offset` is their number.
    #[error("the bytes end at {offset}")]
    CutShort {
        offset: u64,
    },
    /// The bytes of a block, in column `bx` and row `by` of the level's blocks, are no word of its codes or not its
    /// heights.
    #[error("block {bx} {by} of level {level}: {fault}")]
    BadBlock {
        level: u8,
        bx: u32,
        by: u32,
        fault: BlockFault,
    },
    /// The cell in column `i` and row `j` of the level is the first of its block whose value, in metres, is no height
    /// of 16 bits and not within half a step of one.
    #[error("the value {value} in column {i} and row {j} of level {level} is out of range")]
    OutOfRange {
        level: u8,
        i: u32,
        j: u32,
        value: i32,
    },
    /// Bytes follow the last block, the first of them at `offset`.
    #[error("more bytes from {offset} on")]
    Excess {
        offset: u64,
    },
    /// Memory ran out.
    #[error("out of memory")]
    NoMemory,
}
