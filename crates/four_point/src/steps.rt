//! Codes by a step, both ways, and the nearest height of 16 bits.

ghost use Rattle.std.specs.Prelude.{◌≡◌, ◌^◌, ◌<◌, ◌≤◌, ◌%◌, ◌-◌, ◌/◌, pos, neg_ℤ, ◌+ℤ◌, ◌-ℤ◌, ◌*ℤ◌, ◌≤ℤ◌, ◌<ℤ◌, FitsSigned};
ghost use Rattle.std.specs.Int.{w16};
ghost use Rattle.clip_regions.specs.FloorDivision.{floor_div};
ghost use Rattle.four_point.specs.Patches.{patch_height, IsOfBlock, IsAtMost};
ghost use Rattle.four_point.specs.Steps.{IsStep, code_of, value_of, brought};

use crate::patch::Patch;
use crate::prediction::{predict, residual};
use clip_regions::floor_div;

/// How many steps the height at cell (`i`, `j`) of a patch's block lies above its prediction, to the nearest whole
/// number.
///
/// `step` is odd, and in metres. The height is within half a step of the prediction and so many steps.
#[tactic(auto, unfolding(crate::specs::Steps::code_of))]
pub fn code_by(patch: &Patch, i: i32, j: i32, height: i16, step: u8) -> i32
    requires column { IsOfBlock patch.now.i0 i }
    requires row { IsOfBlock patch.now.j0 j }
    requires step { IsStep step }
    ensures value { result ≡ code_of (patch_height patch.now) step i j height }
    ensures size { IsAtMost 131071 result }
{
    steps_in(residual(patch, i, j, height), step)
}

// How many steps a distance has, to the nearest whole number.
#[inline]
pub(crate) fn steps_in(distance: i32, step: u8) -> i32
    requires distance { IsAtMost 100000 distance }
    requires step { IsStep step }
    ensures value { result ≡ floor_div (distance +ℤ pos ((step - 1) / 2)) step }
    ensures size { IsAtMost 131071 result }
{
    if step == 1 {
        return distance;
    }
    floor_div(distance + i32::from((step - 1) / 2), i32::from(step))
}

/// The prediction at cell (`i`, `j`) of a patch's block and `code` steps, -2^17 to 2^17 - 1 of them, in metres.
#[tactic(auto, unfolding(crate::specs::Steps::value_of))]
pub fn value_by(patch: &Patch, i: i32, j: i32, code: i32, step: u8) -> i32
    requires column { IsOfBlock patch.now.i0 i }
    requires row { IsOfBlock patch.now.j0 j }
    requires low { neg_ℤ (pos (2 ^ 17)) ≤ℤ code }
    requires high { code <ℤ pos (2 ^ 17) }
    requires step { IsStep step }
    ensures { result ≡ value_of (patch_height patch.now) step i j code }
{
    predict(patch, i, j) + steps_of(code, step)
}

// So many steps, in metres.
#[inline]
pub(crate) fn steps_of(code: i32, step: u8) -> i32
    requires low { neg_ℤ (pos (2 ^ 17)) ≤ℤ code }
    requires high { code <ℤ pos (2 ^ 17) }
    requires step { step ≤ 255 }
    ensures value { result ≡ pos step *ℤ code }
    ensures size { IsAtMost 33423360 result }
{
    i32::from(step) * code
}

/// The nearest height of 16 bits, -32768 to 32767.
#[inline]
#[tactic(auto, unfolding(crate::specs::Steps::brought))]
pub fn bring(value: i32) -> i16
    ensures value { result ≡ brought value }
    ensures same { neg_ℤ (pos 32768) ≤ℤ value → value ≤ℤ pos 32767 → result ≡ value }
{
    value.clamp(-32768, 32767) as i16
}
