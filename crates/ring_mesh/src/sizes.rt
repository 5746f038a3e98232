//! The sizes of small regions.

ghost use Rattle.std.specs.Prelude.{◌≡◌, ◌≤◌, ◌*◌, ◌^◌, pos, ◌+ℤ◌, ◌≤ℤ◌};
ghost use Rattle.std.specs.Int.{int_gap};
ghost use Rattle.clip_regions.specs.Regions.{IsWithin, columns, rows};
ghost use Rattle.mesh_laws.specs.Conditions.{IsSmall};

use clip_regions::Region;

// How many columns a region has.
pub(crate) fn columns(region: &Region) -> u32
    requires { IsWithin (2 ^ 25) region.now }
    ensures value { result ≡ columns region.now }
    ensures few { result ≤ 2 ^ 27 }
{
    if region.x1 < region.x0 {
        0
    } else {
        (region.x1 - region.x0) as u32 + 1
    }
}

// How many rows a region has.
pub(crate) fn rows(region: &Region) -> u32
    requires { IsWithin (2 ^ 25) region.now }
    ensures value { result ≡ rows region.now }
    ensures few { result ≤ 2 ^ 27 }
{
    if region.y1 < region.y0 {
        0
    } else {
        (region.y1 - region.y0) as u32 + 1
    }
}

// How many cells a small region has.
#[tactic(auto, using(crate::proofs::Wider::within_more))]
pub(crate) fn area(region: &Region) -> u32
    requires { IsSmall region.now }
    ensures value { result ≡ columns region.now * rows region.now }
    ensures few { result ≤ 65025 }
{
    product(columns(region), rows(region))
}

// The product of two small numbers.
pub(crate) fn product(a: u32, b: u32) -> u32
    requires a { a ≤ 255 }
    requires b { b ≤ 255 }
    ensures value { result ≡ a * b }
    ensures few { result ≤ 65025 }
{
    a * b
}
