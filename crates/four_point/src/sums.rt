//! Weighted sums of coarser heights.

ghost use Rattle.std.specs.Prelude.{◌≡◌, ◌*◌, ◌≤◌, pos, neg_ℤ, ◌+ℤ◌, ◌-ℤ◌, ◌*ℤ◌, ◌≤ℤ◌, ℕ};
ghost use Rattle.four_point.specs.Prediction.{weighted, row_sum, column_sum, square_sum};
ghost use Rattle.four_point.specs.Patches.{patch_height, IsCovered, IsAtMost};

use crate::patch::Patch;

// The height of a patch at a coarser cell that it covers.
#[tactic(auto, unfolding(crate::specs::Patches::patch_height))]
pub(crate) fn height_of(patch: &Patch, a: i32, b: i32) -> i32
    requires column { IsCovered patch.now.i0 0 0 a }
    requires row { IsCovered patch.now.j0 0 0 b }
    ensures value { result ≡ patch_height patch.now a b }
    ensures size { IsAtMost 32768 result }
{
    i32::from(patch.h[(b - patch.j0) as usize][(a - patch.i0) as usize])
}

// Four values by the weights -1, 9, 9 and -1.
#[tactic(auto, unfolding(crate::specs::Prediction::weighted))]
pub(crate) fn weighted(before: i32, near: i32, far: i32, beyond: i32) -> i32
    requires before { IsAtMost 655360 before }
    requires near { IsAtMost 655360 near }
    requires far { IsAtMost 655360 far }
    requires beyond { IsAtMost 655360 beyond }
    ensures value { result ≡ weighted before near far beyond }
    ensures size { (n : ℕ) → IsAtMost n before → IsAtMost n near → IsAtMost n far → IsAtMost n beyond →
        IsAtMost (20 * n) result }
{
    9 * (near + far) - (before + beyond)
}

// The weighted sum along row `b`, at columns `a` - 1 to `a` + 2.
#[tactic(auto, unfolding(crate::specs::Prediction::row_sum))]
pub(crate) fn row_sum(patch: &Patch, a: i32, b: i32) -> i32
    requires column { IsCovered patch.now.i0 1 2 a }
    requires row { IsCovered patch.now.j0 0 0 b }
    ensures value { result ≡ row_sum (patch_height patch.now) a b }
    ensures size { IsAtMost 655360 result }
{
    weighted(
        height_of(patch, a - 1, b),
        height_of(patch, a, b),
        height_of(patch, a + 1, b),
        height_of(patch, a + 2, b),
    )
}

// The weighted sum along column `a`, at rows `b` - 1 to `b` + 2.
#[tactic(auto, unfolding(crate::specs::Prediction::column_sum))]
pub(crate) fn column_sum(patch: &Patch, a: i32, b: i32) -> i32
    requires column { IsCovered patch.now.i0 0 0 a }
    requires row { IsCovered patch.now.j0 1 2 b }
    ensures value { result ≡ column_sum (patch_height patch.now) a b }
    ensures size { IsAtMost 655360 result }
{
    weighted(
        height_of(patch, a, b - 1),
        height_of(patch, a, b),
        height_of(patch, a, b + 1),
        height_of(patch, a, b + 2),
    )
}

// The sum of the sixteen heights round a place, each by the product of its two weights.
#[tactic(auto, unfolding(crate::specs::Prediction::square_sum))]
pub(crate) fn square_sum(patch: &Patch, a: i32, b: i32) -> i32
    requires column { IsCovered patch.now.i0 1 2 a }
    requires row { IsCovered patch.now.j0 1 2 b }
    ensures value { result ≡ square_sum (patch_height patch.now) a b }
    ensures size { IsAtMost 13107200 result }
{
    weighted(
        row_sum(patch, a, b - 1),
        row_sum(patch, a, b),
        row_sum(patch, a, b + 1),
        row_sum(patch, a, b + 2),
    )
}
