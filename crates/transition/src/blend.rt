//! The height of a vertex, blended towards the next coarser level.

ghost use Rattle.std.specs.Prelude.{◌≡◌, ◌/◌, ◌^◌, ◌≤◌, IsTrue, false, pos, neg_ℤ, ◌*ℤ◌, ◌≤ℤ◌, int_lt};
ghost use Rattle.clip_regions.specs.Regions.{contains};
ghost use Rattle.plan_model.specs.Limits.{IsSize};
ghost use Rattle.plan_model.specs.Window.{blend_width};
ghost use Rattle.mesh_model.specs.Height.{blended_height, blend_share, border_distance};
ghost use Rattle.transition.specs.Weights.{mean_by, coarser_weight, own_weight};

use clip_regions::Region;
use level_frame::blend_width;

// How far cell (i, j) of a region lies inside its border.
fn border_distance(active: Region, i: i32, j: i32) -> i64
    requires { IsTrue (contains active i j) }
    ensures value { result ≡ border_distance active i j }
    ensures inside { pos 0 ≤ℤ result }
{
    let (column, row) = (i64::from(i), i64::from(j));
    let across = (column - i64::from(active.x0)).min(i64::from(active.x1) - column);
    let along = (row - i64::from(active.y0)).min(i64::from(active.y1) - row);
    across.min(along)
}

// How much of the blend width goes to the coarser level at cell (i, j): all at the border, and nothing from
// the blend width on or at the coarsest level.
fn blend_share(k: u8, coarsest: bool, active: Region, i: i32, j: i32) -> i32
    requires k { IsSize k }
    requires inside { IsTrue (contains active i j) }
    ensures value { result ≡ blend_share k coarsest active i j }
    ensures some { pos 0 ≤ℤ result }
    ensures within { result ≤ℤ pos (blend_width k) }
{
    if coarsest {
        return 0;
    }
    let width = i64::from(blend_width(k));
    0i64.max(width - border_distance(active, i, j)) as i32
}

// How many thirty-seconds of a metre one cell of the blend width gives of a height: 32 over that width.
fn own_scale(k: u8) -> i32
    requires { IsSize k }
    ensures value { result ≡ pos (32 / blend_width k) }
    ensures few { result ≤ℤ pos 32 }
{
    match k {
        4 => 32,
        5 => 16,
        6 => 8,
        7 => 4,
        _ => 2,
    }
}

// The same for each of two coarser heights: 16 over the blend width.
fn coarser_scale(k: u8) -> i32
    requires { IsSize k }
    ensures value { result ≡ pos (16 / blend_width k) }
    ensures few { result ≤ℤ pos 32 }
{
    match k {
        4 => 16,
        5 => 8,
        6 => 4,
        7 => 2,
        _ => 1,
    }
}

// The weight of a cell's own height, where the coarser heights have this share of the blend width.
fn own_weight(k: u8, share: i32) -> i32
    requires k { IsSize k }
    requires some { pos 0 ≤ℤ share }
    requires within { share ≤ℤ pos (blend_width k) }
    ensures value { result ≡ own_weight k share }
    ensures positive { pos 0 ≤ℤ result }
    ensures few { result ≤ℤ pos 32 }
{
    (blend_width(k) - share) * own_scale(k)
}

// The weight of each of the two coarser heights, where they have this share of the blend width.
fn coarser_weight(k: u8, share: i32) -> i32
    requires k { IsSize k }
    requires some { pos 0 ≤ℤ share }
    requires within { share ≤ℤ pos (blend_width k) }
    ensures value { result ≡ coarser_weight k share }
    ensures positive { pos 0 ≤ℤ result }
    ensures few { result ≤ℤ pos 32 }
{
    share * coarser_scale(k)
}

// A height, or the sum of two, times a weight.
fn weighted(weight: i32, height: i32) -> i32
    requires positive { pos 0 ≤ℤ weight }
    requires few { weight ≤ℤ pos 32 }
    requires low { neg_ℤ (pos (2 ^ 16)) ≤ℤ height }
    requires high { height ≤ℤ pos (2 ^ 16) }

    // It is the product, and small.
    ensures value { result ≡ weight *ℤ height }
    ensures low { neg_ℤ (pos (2 ^ 21)) ≤ℤ result }
    ensures high { result ≤ℤ pos (2 ^ 21) }
{
    weight * height
}

// The mean of a cell's own height and of two coarser heights that have this share of the blend width.
fn mean(k: u8, share: i32, own: i16, a: i16, b: i16) -> i32
    requires k { IsSize k }
    requires some { pos 0 ≤ℤ share }
    requires within { share ≤ℤ pos (blend_width k) }
    ensures { result ≡ mean_by k share own a b }
{
    let coarser = i32::from(a) + i32::from(b);
    weighted(own_weight(k, share), i32::from(own)) + weighted(coarser_weight(k, share), coarser)
}

/// The height, in thirty-seconds of a metre, of the vertex at cell (`i`, `j`) of a level's active region.
///
/// `own` is the level's height there, and `a` and `b` are the next coarser level's heights at the two
/// [`ends`](crate::ends), all in metres. Over the last 2^(K − 4) cells before the region's border the height
/// goes over into the mean of `a` and `b`, which it is at the border. The coarsest level keeps its own.
pub fn blended(
    k: u8,
    coarsest: bool,
    active: Region,
    i: i32,
    j: i32,
    own: i16,
    a: i16,
    b: i16,
) -> i32
    requires k { IsSize k }
    requires inside { IsTrue (contains active i j) }
    ensures value { result ≡ blended_height k coarsest active i j own a b }
{
    mean(k, blend_share(k, coarsest, active, i, j), own, a, b)
}

/// Whether the height of the vertex at cell (`i`, `j`) of a level's active region, which isn't the coarsest,
/// takes anything of the coarser heights: within 2^(K − 4) cells of the region's border.
pub fn is_blended(k: u8, active: Region, i: i32, j: i32) -> bool
    requires k { IsSize k }
    requires inside { IsTrue (contains active i j) }
    ensures value { result ≡ int_lt (pos 0) (blend_share k false active i j) }
{
    blend_share(k, false, active, i, j) > 0
}
