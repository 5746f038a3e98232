ghost use Rattle.std.specs.Prelude.{◌≡◌, ℕ, ◌≤◌, ◌<◌, ◌^◌, [], ◌++◌, OnOk, OnErr};
ghost use Rattle.rice_residuals.specs.Bits.{low_bits, packed};

use crate::fault::NoMemory;
use std::alloc::Global;
use std::marker::Model;

/// Puts bits into bytes, the high end of each byte first. Contracts see the list of the bits that were put.
#[derive(Drop)]
pub struct BitWriter {
    bytes: Vec<u8>,
    pending: u64,
    held: u32,
}

impl Model for BitWriter {
    ghost use Rattle.std.specs.Prelude.{Bool, List, ◌≤◌, ◌<◌, ◌+◌, ◌/◌, ◌++◌, vec_len, vec_capacity};
    ghost use Rattle.rice_residuals.specs.Bits.{low_bits, bits_of_bytes};

    ghost Value = { List Bool };

    ghost view = { λ w. bits_of_bytes w.bytes.items ++ low_bits w.held w.pending };

    ghost invariant = { λ w. (w.held < 32) × (vec_len w.bytes + (w.held + 7) / 8 ≤ vec_capacity w.bytes) };
}

impl BitWriter {
    /// A writer of no bits yet.
    pub fn new(alloc: Global) -> BitWriter
        ensures { result ≡ [] }
    {
        BitWriter {
            bytes: Vec::new(alloc),
            pending: 0,
            held: 0,
        }
    }

    /// Puts the low `count` bits of `bits`, high end first. Where memory runs out, nothing changes.
    #[inline]
    pub fn push(&mut self, bits: u32, count: u8) -> Result<(), NoMemory>
        requires count { count ≤ 32 }
        requires bits { bits < 2 ^ count }
        ensures ok { OnOk result (self.new ≡ self.old ++ low_bits count bits) }
        ensures err { OnErr result (self.new ≡ self.old) }
    {
        if self.bytes.reserve(8).is_err() {
            return Err(NoMemory);
        }
        let count = u32::from(count);
        let pending = (self.pending << count) | u64::from(bits);
        let held = self.held + count;
        self.pending = pending;
        if held < 32 {
            self.held = held;
            return Ok(());
        }
        let word = ((pending >> (held - 32)) & 0xffff_ffff) as u32;
        self.held = held - 32;
        self.bytes.extend_from_slice(&word.to_be_bytes()).unwrap();
        Ok(())
    }

    /// The bytes, with the last one filled up by zero bits. It takes no memory: each push made room for what it began.
    pub fn finish(self) -> Vec<u8>
        ensures { result.items ≡ packed self }
    {
        let BitWriter {
            mut bytes,
            pending,
            held,
        } = self;
        let word = ((pending << (32 - held)) & 0xffff_ffff) as u32;
        let count = (held + 7) / 8;
        let tail = word.to_be_bytes();
        bytes.extend_from_slice(&tail[..count as usize]).unwrap();
        bytes
    }
}
