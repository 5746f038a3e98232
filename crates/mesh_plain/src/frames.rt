//! Which active regions the plain program draws.

ghost use Rattle.std.specs.Prelude.{◌≡◌, ◌-◌, ◌^◌, ◌<◌, ◌≤◌, ◌&&◌, ◌↔◌, IsTrue, ℤ, pos, neg_ℤ, int_le, length, false};
ghost use Rattle.clip_regions.specs.FloorDivision.{floor_rem};
ghost use Rattle.clip_regions.specs.Regions.{HasEvenCorners, is_empty};
ghost use Rattle.mesh_plain.specs.Blocks.{HasPlacedCorners};
ghost use Rattle.mesh_plain.specs.Frames.{IsDrawn, AreDrawn};

use clip_regions::{Region, wrap};

// How far from the mosaic's corner the cells of a level may lie.
fn reach(level: u8) -> i32
    requires { level < 12 }
    ensures { result ≡ pos (2 ^ (24 - level)) }
{
    1 << (24 - level)
}

// Whether a coordinate of a level lies within 2^24 samples of the mosaic's corner.
fn is_placed(level: u8, i: i32) -> bool
    requires { level < 12 }
    ensures { result ≡ (int_le (neg_ℤ (pos (2 ^ (24 - level)))) i && int_le i (pos (2 ^ (24 - level)))) }
{
    let reach = reach(level);
    -reach <= i && i <= reach
}

// Whether all four corners of a region lie so near.
fn has_placed_corners(level: u8, region: &Region) -> bool
    requires { level < 12 }
    ensures { IsTrue result ↔ HasPlacedCorners level region.now }
{
    if !is_placed(level, region.x0) {
        return false;
    }
    if !is_placed(level, region.y0) {
        return false;
    }
    if !is_placed(level, region.x1) {
        return false;
    }
    is_placed(level, region.y1)
}

// Whether a number is even.
fn is_even(x: i32) -> bool
    ensures { IsTrue result ↔ (floor_rem x 2 ≡ 0) }
{
    wrap(x, 2) == 0
}

// Whether all four corners of a region are even.
fn has_even_corners(region: &Region) -> bool
    ensures { IsTrue result ↔ HasEvenCorners region.now }
{
    if !is_even(region.x0) {
        return false;
    }
    if !is_even(region.y0) {
        return false;
    }
    if !is_even(region.x1) {
        return false;
    }
    is_even(region.y1)
}

// Whether a region is empty or has even corners.
fn is_even_or_empty(region: &Region) -> bool
    ensures { IsTrue result ↔ (is_empty region.now ≡ false → HasEvenCorners region.now) }
{
    if region.is_empty() {
        true
    } else {
        has_even_corners(region)
    }
}

// Whether an active region of a level can be drawn.
fn is_drawn(level: u8, region: &Region) -> bool
    requires { level < 12 }
    ensures { IsTrue result ↔ IsDrawn level region.now }
{
    if !has_placed_corners(level, region) {
        return false;
    }
    is_even_or_empty(region)
}

/// Whether these active regions, the finest first, can be drawn: each is empty or has even corners, and
/// its corners lie within 2^24 samples of the mosaic's corner.
pub fn are_drawn(actives: &[Region]) -> bool
    requires levels { length actives.now ≤ 12 }
    ensures drawn { IsTrue result ↔ AreDrawn 0 actives.now }
{
    let mut level = 0;
    for active in actives {
        if !is_drawn(level, active) {
            return false;
        }
        level += 1;
    }
    true
}
