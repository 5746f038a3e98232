//! Which boxes a view keeps.

ghost use Rattle.std.specs.Prelude.{◌≡◌, ◌^◌, ◌&&◌, ◌*ℤ◌};
ghost use Rattle.std.specs.List.{list_any};
ghost use Rattle.mesh_model.specs.Seen.{is_point_outside, is_box_outside, corner_value, is_box_kept};
ghost use Rattle.region_cull.specs.Views.{IsNearZero};

use crate::View;
use mesh_model::{Bounds, HalfSpace};

// The product of two numbers.
fn product(a: i32, b: i32) -> i128
    ensures value { result ≡ a *ℤ b }
    ensures small { IsNearZero (2 ^ 62) result }
{
    i128::from(a) * i128::from(b)
}

// The value at a corner of a box, in thirty-seconds: it is negative outside the half-space.
fn corner_value(space: &HalfSpace, x: i32, height: i32, z: i32) -> i128
    ensures { result ≡ corner_value space.now x height z }
{
    let across = product(space.a, x);
    let up = product(space.b, height);
    let down = product(space.c, z);
    32 * across + up + 32 * down + 32 * i128::from(space.d)
}

// Whether a corner of a box lies outside a half-space.
#[tactic(auto, unfolding(mesh_model::specs::Seen::is_point_outside))]
fn is_corner_outside(space: &HalfSpace, x: i32, height: i32, z: i32) -> bool
    ensures { result ≡ is_point_outside space.now x height z }
{
    corner_value(space, x, height, z) < 0
}

// Whether both ends of an edge of a box that runs from west to east lie outside a half-space.
fn is_edge_outside(space: &HalfSpace, bounds: &Bounds, height: i32, z: i32) -> bool
    ensures { result ≡ (is_point_outside space.now bounds.now.x0 height z &&
        is_point_outside space.now bounds.now.x1 height z) }
{
    is_corner_outside(space, bounds.x0, height, z) && is_corner_outside(space, bounds.x1, height, z)
}

// Whether the four corners of a box in a row lie outside a half-space.
fn is_side_outside(space: &HalfSpace, bounds: &Bounds, z: i32) -> bool
    ensures { result ≡ ((is_point_outside space.now bounds.now.x0 bounds.now.low z &&
        is_point_outside space.now bounds.now.x1 bounds.now.low z) &&
        (is_point_outside space.now bounds.now.x0 bounds.now.high z &&
        is_point_outside space.now bounds.now.x1 bounds.now.high z)) }
{
    is_edge_outside(space, bounds, bounds.low, z) && is_edge_outside(space, bounds, bounds.high, z)
}

/// Whether all eight corners of a part's box lie outside a half-space, which then drops the part.
#[tactic(auto, unfolding(mesh_model::specs::Seen::is_box_outside))]
pub fn is_outside(space: &HalfSpace, bounds: &Bounds) -> bool
    ensures value { result ≡ is_box_outside space.now bounds.now }
{
    is_side_outside(space, bounds, bounds.z0) && is_side_outside(space, bounds, bounds.z1)
}

// Whether some half-space has all of a box outside.
fn is_dropped(spaces: &[HalfSpace], bounds: &Bounds) -> bool
    ensures { result ≡ list_any (λ space. is_box_outside space bounds.now) spaces.now }
{
    spaces.iter().any(|space| is_outside(space, bounds))
}

/// Whether a view keeps a part with these bounds: for no half-space all eight corners of the box lie outside. What it
/// drops can't be seen (`mesh_model::dropped_parts_are_unseen`).
#[tactic(auto, unfolding(mesh_model::specs::Seen::is_box_kept))]
pub fn kept(bounds: &Bounds, view: &View) -> bool
    ensures { result ≡ is_box_kept view.now bounds.now }
{
    !is_dropped(view.spaces(), bounds)
}
