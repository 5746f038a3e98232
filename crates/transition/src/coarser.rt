//! The coarser cells between which a cell lies.

ghost use Rattle.std.specs.Prelude.{◌≡◌};
ghost use Rattle.mesh_model.specs.Height.{lower_end, upper_end};

use clip_regions::{floor_div, wrap};

// The coarser coordinate before or at a coordinate.
fn lower_end(i: i32) -> i32
    ensures { result ≡ lower_end i }
{
    floor_div(i, 2)
}

// The coarser coordinate at or after a coordinate.
fn upper_end(i: i32) -> i32
    ensures { result ≡ upper_end i }
{
    floor_div(i, 2) + wrap(i, 2)
}

/// The two coarser cells between which cell (`i`, `j`) of a level lies, as (Ai, Aj, Bi, Bj) in cells of the
/// next coarser level: A before or at the cell and B at or after it, on both axes. They are one cell where
/// `i` and `j` are even.
pub fn ends(i: i32, j: i32) -> (i32, i32, i32, i32)
    ensures ai { result.0 ≡ lower_end i }
    ensures aj { result.1 ≡ lower_end j }
    ensures bi { result.2 ≡ upper_end i }
    ensures bj { result.3 ≡ upper_end j }
{
    (lower_end(i), lower_end(j), upper_end(i), upper_end(j))
}
