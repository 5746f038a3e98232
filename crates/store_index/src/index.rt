//! The offset of every 32nd block.

ghost use Rattle.std.specs.Prelude.{◌≡◌, ◌<◌, ◌≤◌, ◌*◌, ◌/◌, ◌+◌, length, OnOk, IfOk, ◌^◌, ◌∷◌, ◌++◌, []};
ghost use Rattle.store_index.specs.Places.{behind, block_total, AreThere, first_offset, stored_block};
ghost use Rattle.store_index.specs.Index.{marks_of, IsIndexOf};
ghost use Rattle.store_reader.specs.Headers.{head_of, IsReadable};

use crate::sizes::block_total;
use crate::walk::{content_at, skip};
use rice_residuals::NoMemory;
use std::alloc::Global;
use std::marker::Model;
use store_reader::Header;

/// Where every 32nd block of a store stands in its bytes.
#[derive(Drop)]
pub struct BlockIndex {
    marks: Vec<usize>,
}

impl Model for BlockIndex {
    ghost use Rattle.std.specs.Prelude.{ℕ, List};

    ghost Value = { List ℕ };

    ghost view = { λ index. index.marks.items };
}

// Puts an offset behind those that are there.
fn push_mark(marks: &mut Vec<usize>, at: usize) -> Result<(), NoMemory>
    ensures { OnOk result (marks.new.items ≡ marks.old.items ++ at ∷ []) }
{
    if marks.push(at).is_err() {
        return Err(NoMemory);
    }
    Ok(())
}

// Appends the offsets behind 32 blocks, behind 64 and so on.
fn push_marks(
    marks: &mut Vec<usize>,
    bytes: &[u8],
    first: usize,
    count: u32,
) -> Result<(), NoMemory>
    requires empty { marks.old.items ≡ [] }
    requires few { count ≤ 2 ^ 26 }
    requires there { AreThere bytes.now first (32 * count) }
    ensures { OnOk result (marks.new.items ≡ marks_of bytes.now first count) }
{
    let mut at = first;
    for _m in 0..count {
        at = skip(bytes, at, 32);
        push_mark(marks, at)?;
    }
    Ok(())
}

impl BlockIndex {
    /// The index of the blocks of a store with this header.
    pub fn new(alloc: Global, bytes: &[u8], header: Header) -> Result<BlockIndex, NoMemory>
        requires header { IsReadable header }
        requires blocks { AreThere bytes.now (first_offset (head_of header)) (block_total (head_of header)) }
        ensures { IfOk result (λ index. IsIndexOf (head_of header) bytes.now index) }
    {
        let count = block_total(header) / 32;
        let Ok(mut marks) = Vec::with_capacity(alloc, count as usize) else {
            return Err(NoMemory);
        };
        push_marks(&mut marks, bytes, 12 + usize::from(header.version), count)?;
        Ok(BlockIndex { marks })
    }

    // The offset of a block that isn't more than 31 blocks before the one of this number.
    fn mark_before(&self, bytes: &[u8], header: Header, number: u32) -> usize
        requires header { IsReadable header }
        requires index { IsIndexOf (head_of header) bytes.now self.now }
        requires number { number < block_total (head_of header) }
        ensures { result ≡ behind bytes.now (first_offset (head_of header)) (32 * (number / 32)) }
    {
        let _ = bytes;
        if number < 32 {
            return 12 + usize::from(header.version);
        }
        self.marks[(number / 32 - 1) as usize]
    }

    /// The bytes of a block, by its number among all blocks of the store. At most 31 lengths are read on the way.
    pub fn content<'a>(&self, bytes: &'a [u8], header: Header, number: u32) -> &'a [u8]
        requires header { IsReadable header }
        requires blocks { AreThere bytes.now (first_offset (head_of header)) (block_total (head_of header)) }
        requires index { IsIndexOf (head_of header) bytes.now self.now }
        requires number { number < block_total (head_of header) }
        ensures { result.now ≡ stored_block (head_of header) bytes.now number }
    {
        let from = self.mark_before(bytes, header, number);
        content_at(bytes, skip(bytes, from, number % 32))
    }
}
