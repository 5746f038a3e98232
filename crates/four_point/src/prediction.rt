//! The prediction of a cell, and its residual, both ways.

ghost use Rattle.std.specs.Prelude.{◌≡◌, ◌^◌, ◌<◌, ℕ, pos, neg_ℤ, ◌+ℤ◌, ◌-ℤ◌, ◌≤ℤ◌, ◌<ℤ◌, if◌then◌else◌};
ghost use Rattle.clip_regions.specs.FloorDivision.{floor_div, floor_rem};
ghost use Rattle.four_point.specs.Prediction.{prediction};
ghost use Rattle.four_point.specs.Patches.{patch_height, IsOfBlock, IsAtMost};

use crate::patch::Patch;
use crate::sums::{column_sum, height_of, row_sum, square_sum};

/// The height that the coarser heights of a patch predict at cell (`i`, `j`) of its block, in metres.
#[tactic(auto, unfolding(crate::specs::Prediction::prediction, crate::specs::Prediction::predicted))]
pub fn predict(patch: &Patch, i: i32, j: i32) -> i32
    requires column { IsOfBlock patch.now.i0 i }
    requires row { IsOfBlock patch.now.j0 j }
    ensures value { result ≡ prediction (patch_height patch.now) i j }
    ensures size { IsAtMost 51200 result }
{
    let (a, b) = (half(i), half(j));
    match (is_odd(i), is_odd(j)) {
        (false, false) => height_of(patch, a, b),
        (true, false) => rounded_over_16(row_sum(patch, a, b)),
        (false, true) => rounded_over_16(column_sum(patch, a, b)),
        (true, true) => rounded_over_256(square_sum(patch, a, b)),
    }
}

/// How far the height at cell (`i`, `j`) of a patch's block lies above its prediction, in metres.
pub fn residual(patch: &Patch, i: i32, j: i32, height: i16) -> i32
    requires column { IsOfBlock patch.now.i0 i }
    requires row { IsOfBlock patch.now.j0 j }
    ensures value { result ≡ height -ℤ prediction (patch_height patch.now) i j }
    ensures size { IsAtMost 83968 result }
{
    i32::from(height) - predict(patch, i, j)
}

/// The height at cell (`i`, `j`) of a patch's block that has this residual, -2^17 to 2^17 - 1, in
/// metres: the prediction and the residual together.
pub fn restore(patch: &Patch, i: i32, j: i32, residual: i32) -> i32
    requires column { IsOfBlock patch.now.i0 i }
    requires row { IsOfBlock patch.now.j0 j }
    requires low { neg_ℤ (pos (2 ^ 17)) ≤ℤ residual }
    requires high { residual <ℤ pos (2 ^ 17) }
    ensures { result ≡ prediction (patch_height patch.now) i j +ℤ residual }
{
    predict(patch, i, j) + residual
}

// Half of `z`, rounded down.
#[tactic(auto, unfolding(clip_regions::specs::FloorDivision::floor_div))]
fn half(z: i32) -> i32
    ensures value { result ≡ floor_div z 2 }
    ensures low { (result +ℤ result) ≤ℤ z }
    ensures high { z ≤ℤ (result +ℤ result +ℤ pos 1) }
{
    z.div_euclid(2)
}

// Is `z` odd?
#[tactic(auto, unfolding(clip_regions::specs::FloorDivision::floor_rem))]
fn is_odd(z: i32) -> bool
    ensures { floor_rem z 2 ≡ (if result then 1 else 0) }
{
    z.rem_euclid(2) == 1
}

// A sixteenth of a weighted sum, rounded once to the nearest whole number, halves up.
#[tactic(auto, unfolding(clip_regions::specs::FloorDivision::floor_div))]
pub(crate) fn rounded_over_16(sum: i32) -> i32
    requires { IsAtMost 655360 sum }
    ensures value { result ≡ floor_div (sum +ℤ pos 8) 16 }
    ensures size { IsAtMost 51200 result }
{
    (sum + 8).div_euclid(16)
}

// One part in 256 of a sum of sixteen, rounded once to the nearest whole number, halves up.
#[tactic(auto, unfolding(clip_regions::specs::FloorDivision::floor_div))]
pub(crate) fn rounded_over_256(sum: i32) -> i32
    requires { IsAtMost 13107200 sum }
    ensures value { result ≡ floor_div (sum +ℤ pos 128) 256 }
    ensures size { IsAtMost 51200 result }
{
    (sum + 128).div_euclid(256)
}
