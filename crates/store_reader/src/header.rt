//! The header of a store.

ghost use Rattle.std.specs.Prelude.{◌≡◌, ◌≢◌, ◌↔◌, ◌⊎◌, ◌+◌, ◌*◌, ◌^◌, ◌<◌, ◌≤◌, length, drop, IsTrue, IfOk, IfErr, IfSome, IfNone};
ghost use Rattle.store_model.specs.Format.{IsSoundHead};
ghost use Rattle.store_model.specs.Faults.{BeginsAs, OpensWithHead, IsSide, IsBadField};
ghost use Rattle.store_reader.specs.Headers.{head_of, IsReadable, IsHeaderOf, HasHeaderFault};

use byteorder::{BigEndian, ByteOrder};
use store_model::{Field, StoreFault};

/// What the header of a store says.
#[derive(Clone, Copy, Debug, PartialEq, Eq)]
pub struct Header {
    /// 1, or 2 where the store names a step.
    pub version: u8,
    /// How many columns the terrain has, in samples.
    pub width: u32,
    /// How many rows the terrain has, in samples.
    pub height: u32,
    /// How many levels there are, 1 to 12.
    pub levels: u8,
    /// The step in metres, odd, and 1 in version 1.
    pub step: u8,
}

// Whether the first bytes, up to four, begin as those of a version do.
fn begins_as(bytes: &[u8], version: u8) -> bool
    requires { version ≤ 2 }
    ensures { IsTrue result ↔ BeginsAs version bytes.now }
{
    let magic = [b'G', b'C', b'T', b'0' + version];
    let length = if bytes.len() < 4 { bytes.len() } else { 4 };
    bytes[..length] == magic[..length]
}

// The version as which the bytes begin: 1 or 2, and 1 where they may be both.
fn version_of(bytes: &[u8]) -> Option<u8>
    ensures known { IfSome result (λ version. (version ≡ 1) ⊎ (version ≡ 2)) }
    ensures begins { IfSome result (λ version. BeginsAs version bytes.now) }
    ensures none { IfNone result ((¬ BeginsAs 1 bytes.now) × (¬ BeginsAs 2 bytes.now)) }
{
    if begins_as(bytes, 1) {
        return Some(1);
    }
    if begins_as(bytes, 2) {
        return Some(2);
    }
    None
}

// What a whole header says, sound or not.
fn spelled_header(bytes: &[u8], version: u8) -> Header
    requires known { (version ≡ 1) ⊎ (version ≡ 2) }
    requires begins { BeginsAs version bytes.now }
    requires whole { 12 + version ≤ length bytes.now }
    ensures version { result.version ≡ version }
    ensures opens { OpensWithHead (head_of result) bytes.now (drop (12 + version) bytes.now) }
{
    Header {
        version,
        width: BigEndian::read_u32(&bytes[4..]),
        height: BigEndian::read_u32(&bytes[8..]),
        levels: bytes[12],
        step: if version == 2 { bytes[13] } else { 1 },
    }
}

// Is the number one of samples that a side may have?
fn is_side(side: u32) -> bool
    ensures { IsTrue result ↔ IsSide side }
{
    1 <= side && side <= 1 << 26
}

// The first field that is out of its range, if there is one.
fn bad_field(header: Header) -> Option<Field>
    requires known { ((header.version ≡ 1) × (header.step ≡ 1)) ⊎ (header.version ≡ 2) }
    ensures bad { IfSome result (λ field. IsBadField (head_of header) field) }
    ensures sound { IfNone result (IsReadable header) }
{
    if !is_side(header.width) {
        return Some(Field::Width);
    }
    if !is_side(header.height) {
        return Some(Field::Height);
    }
    if u64::from(header.width) * u64::from(header.height) > 1 << 26 {
        return Some(Field::Samples);
    }
    if header.levels < 1 || header.levels > 12 {
        return Some(Field::Levels);
    }
    if header.step % 2 == 0 {
        return Some(Field::Step);
    }
    None
}

/// The header that the bytes begin with, or the first fault of the bytes.
pub fn read_header(bytes: &[u8]) -> Result<Header, StoreFault>
    ensures header { IfOk result (λ header. IsHeaderOf header bytes.now) }
    ensures fault { IfErr result (λ fault. HasHeaderFault bytes.now fault) }
{
    let Some(version) = version_of(bytes) else {
        return Err(StoreFault::BadMagic);
    };
    if bytes.len() < 12 + usize::from(version) {
        return Err(StoreFault::CutShort {
            offset: bytes.len() as u64,
        });
    }
    let header = spelled_header(bytes, version);
    match bad_field(header) {
        Some(field) => Err(StoreFault::BadHeader { field }),
        None => Ok(header),
    }
}
