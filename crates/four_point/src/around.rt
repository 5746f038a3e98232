//! Patches of coarser heights, from whatever holds them.

ghost use Rattle.std.specs.Prelude.{◌≡◌, ◌<◌, ℕ, ℤ, pos, ◌+ℤ◌, slice_index_or};
ghost use Rattle.four_point.specs.Patches.{patch_height, IsOfBlock, IsPlace, IsPatchPlace};
ghost use Rattle.four_point.specs.Prediction.{prediction};

use crate::patch::Patch;

/// Whatever can tell the heights of a level at any cell.
pub trait Heights {
    ghost use Rattle.std.specs.Prelude.{ℤ};

    /// The height at column a and row b of the level.
    ghost heights: { Self → ℤ → ℤ → ℤ };

    /// The height at column `a` and row `b`, in metres, both between -2^29 and 2^29.
    fn height(&self, a: i32, b: i32) -> i16
        requires column { IsPlace a }
        requires row { IsPlace b }
        ensures { result ≡ heights self.now a b };
}

// Seven heights of row `b`, from column `i0` on.
fn row_around<H: Heights>(heights: &H, i0: i32, b: i32) -> [i16; 7]
    requires column { IsPlace i0 }
    requires last_column { IsPlace (i0 +ℤ pos 6) }
    requires row { IsPlace b }
    ensures { (a : ℕ) → a < 7 → slice_index_or result a (pos 0) ≡ H.heights heights.now (i0 +ℤ pos a) b }
{
    [
        heights.height(i0, b),
        heights.height(i0 + 1, b),
        heights.height(i0 + 2, b),
        heights.height(i0 + 3, b),
        heights.height(i0 + 4, b),
        heights.height(i0 + 5, b),
        heights.height(i0 + 6, b),
    ]
}

/// The patch of coarser heights that begins at column `i0` and row `j0`.
pub fn patch_around<H: Heights>(heights: &H, i0: i32, j0: i32) -> Patch
    requires { IsPatchPlace i0 j0 }

    // It has its place, and predicts what the heights predict.
    ensures column { result.i0 ≡ i0 }
    ensures row { result.j0 ≡ j0 }
    ensures predictions { (i j : ℤ) → IsOfBlock i0 i → IsOfBlock j0 j
        → prediction (patch_height result) i j ≡ prediction (H.heights heights.now) i j }
{
    Patch {
        i0,
        j0,
        h: [
            row_around(heights, i0, j0),
            row_around(heights, i0, j0 + 1),
            row_around(heights, i0, j0 + 2),
            row_around(heights, i0, j0 + 3),
            row_around(heights, i0, j0 + 4),
            row_around(heights, i0, j0 + 5),
            row_around(heights, i0, j0 + 6),
        ],
    }
}
