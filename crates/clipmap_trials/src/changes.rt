//! Random changes of bytes.
ghost use Rattle.std.specs.Prelude.{◌<◌};

use std::alloc::{AllocError, Global};

// The next number of a generator.
pub(crate) fn next(seed: u64) -> u64 {
    seed.wrapping_mul(6364136223846793005)
        .wrapping_add(1442695040888963407)
}

// A number below n, of a seed.
pub(crate) fn below(seed: u64, n: u32) -> u32
    requires { 0 < n }
    ensures { result < n }
{
    ((seed >> 33) % u64::from(n)) as u32
}

// The bytes that stand in the texts of scripts and frames.
const TYPICAL: &[u8; 32] = b"0123456789-. \n#vfsizeclmpabrhknd";

// A byte: of those that stand in texts where these are typical, and else any.
fn byte_of(seed: u64, typical: bool) -> u8 {
    if typical && below(next(seed), 4) > 0 {
        TYPICAL[below(seed, 32) as usize]
    } else {
        below(seed, 256) as u8
    }
}

// A copy of the bytes, with one to four of them replaced by others.
pub(crate) fn changed(
    alloc: Global,
    bytes: &[u8],
    seed: u64,
    typical: bool,
) -> Result<Vec<u8>, AllocError> {
    let mut copy = Vec::from_slice(alloc, bytes)?;
    let mut seed = next(seed);
    let length = bytes.len().min(1000000) as u32;
    if length == 0 {
        return Ok(copy);
    }
    for _ in 0..below(seed, 4) + 1 {
        let place = below(next(seed), length) as usize;
        seed = next(next(seed));
        if let Some(byte) = copy.get_mut(place) {
            *byte = byte_of(seed, typical);
        }
    }
    Ok(copy)
}
