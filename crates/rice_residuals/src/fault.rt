use std::alloc::AllocError;
use thiserror::Error;

/// Memory ran out.
#[derive(Clone, Copy, Debug, PartialEq, Eq, Error)]
#[error("out of memory")]
pub struct NoMemory;

impl From<AllocError> for NoMemory {
    fn from(_: AllocError) -> NoMemory {
        NoMemory
    }
}

/// The first fault of bytes that are no word, in the order in which a reader takes the bits. Places count bits from 0.
#[derive(Clone, Copy, Debug, PartialEq, Eq, Error)]
pub enum BlockFault {
    /// A bit is wanted and the bytes have ended: `bit` is 8 times the number of bytes.
    #[error("the bytes end at bit {bit}")]
    CutShort { bit: u32 },
    /// The code that begins at `bit` has the long form, of 32 ones and 18 bits, of a number that has the short form.
    #[error("a long form of a short code at bit {bit}")]
    LongForm { bit: u32 },
    /// The code that begins at `bit` stands for 2^18 or more, which no residual has.
    #[error("a code that is too large at bit {bit}")]
    TooWide { bit: u32 },
    /// After the last code the bit at `bit`, in the last begun byte, is the first that is one.
    #[error("a one at bit {bit}, behind the last code")]
    BadPadding { bit: u32 },
    /// After the last begun byte so many whole bytes are left.
    #[error("{bytes} bytes too many")]
    Excess { bytes: u32 },
}
