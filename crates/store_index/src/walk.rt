//! From block to block through the bytes.

ghost use Rattle.std.specs.Prelude.{◌≡◌, ◌+◌, ◌≤◌, length};
ghost use Rattle.store_index.specs.Places.{length_at, content_at, behind, AreThere};

use byteorder::{BigEndian, ByteOrder};

// The length of the block at an offset, in bytes.
#[tactic(auto, unfolding(crate::specs::Places::length_at))]
fn length_at(bytes: &[u8], at: usize) -> usize
    requires { at + 2 ≤ length bytes.now }
    ensures { result ≡ length_at bytes.now at }
{
    usize::from(BigEndian::read_u16(&bytes[at..]))
}

// The bytes of the block at an offset.
#[tactic(auto, unfolding(crate::specs::Places::content_at))]
pub(crate) fn content_at(bytes: &[u8], at: usize) -> &[u8]
    requires { at + 2 + length_at bytes.now at ≤ length bytes.now }
    ensures { result.now ≡ content_at bytes.now at }
{
    let length = length_at(bytes, at);
    &bytes[at + 2..at + 2 + length]
}

// The offset behind the block at an offset.
fn next(bytes: &[u8], at: usize) -> usize
    requires { at + 2 + length_at bytes.now at ≤ length bytes.now }
    ensures { result ≡ at + 2 + length_at bytes.now at }
{
    at + 2 + length_at(bytes, at)
}

// The offset behind `count` blocks, of which the first stands at an offset.
pub(crate) fn skip(bytes: &[u8], first: usize, count: u32) -> usize
    requires { AreThere bytes.now first count }
    ensures { result ≡ behind bytes.now first count }
{
    let mut at = first;
    for _n in 0..count {
        at = next(bytes, at);
    }
    at
}
