//! The sides of the border of an active region, as walks.

ghost use Rattle.std.specs.Prelude.{◌≡◌, ◌+◌, ◌*◌, ◌^◌, ◌<◌, ◌≤◌, ◌++◌, false, OnOk, pos, neg_ℤ, ◌+ℤ◌, ◌-ℤ◌, ◌≤ℤ◌};
ghost use Rattle.clip_regions.specs.Regions.{is_empty, IsWithin};
ghost use Rattle.mesh_model.specs.Parts.{stitches_along};
ghost use Rattle.stitches.specs.Sides.{IsBorder, steps_along, stitch_after, walk_along, kind_of, place_after};

use clip_regions::Region;
use mesh_laws::Ring;
use obj_frames::PartKind;
use ring_mesh::place_in;
use std::alloc::AllocError;

// A side of the border of an active region. The walk goes round the border clockwise as seen from above.
#[derive(Clone, Copy, PartialEq, Eq, Debug)]
pub(crate) enum Side {
    // From the west to the east along the first row.
    North,
    // From the north to the south along the last column.
    East,
    // From the east to the west along the last row.
    South,
    // From the south to the north along the first column.
    West,
}

// The kind of the part that the stitches along a side make.
pub(crate) fn kind_of(side: Side) -> PartKind
    ensures { result ≡ kind_of side }
{
    match side {
        Side::North => PartKind::StitchNorth,
        Side::East => PartKind::StitchEast,
        Side::South => PartKind::StitchSouth,
        Side::West => PartKind::StitchWest,
    }
}

// How many steps the walk along a side has.
pub(crate) fn steps_of(active: &Region, side: Side) -> u32
    requires near { IsWithin (2 ^ 24) active.now }
    requires some { is_empty active.now ≡ false }
    ensures value { result ≡ steps_along active.now side }
    ensures few { result ≤ 2 ^ 25 }
{
    match side {
        Side::North | Side::South => (active.x1 - active.x0) as u32,
        Side::East | Side::West => (active.y1 - active.y0) as u32,
    }
}

// How many stitches a side has, one for each two steps.
fn stitches_of(ring: &Ring, side: Side) -> u32
    requires border { IsBorder ring.now }
    ensures value { 2 * result ≡ steps_along ring.now.active side }
    ensures few { result ≤ 2 ^ 24 }
{
    steps_of(&ring.active, side) / 2
}

// The place of the vertex after `u` steps of the walk along a side.
fn place_after(ring: &Ring, side: Side, u: u32) -> u32
    requires border { IsBorder ring.now }
    requires walked { u ≤ steps_along ring.now.active side }
    ensures { result ≡ place_after ring.now side u }
{
    let active = &ring.active;
    match side {
        Side::North => place_in(ring, active.x0 + u as i32, active.y0),
        Side::East => place_in(ring, active.x1, active.y0 + u as i32),
        Side::South => place_in(ring, active.x1 - u as i32, active.y1),
        Side::West => place_in(ring, active.x0, active.y1 - u as i32),
    }
}

// The stitch of steps 2 · s and 2 · s + 1 of the walk along a side.
fn stitch(ring: &Ring, side: Side, s: u32) -> [u32; 3]
    requires border { IsBorder ring.now }
    requires walked { 2 * s + 2 ≤ steps_along ring.now.active side }
    requires few { s < 2 ^ 28 }
    ensures { result ≡ stitch_after ring.now side s }
{
    [
        place_after(ring, side, 2 * s),
        place_after(ring, side, 2 * s + 1),
        place_after(ring, side, 2 * s + 2),
    ]
}

// Adds the stitches along a side, in the order of the walk.
pub(crate) fn add_walk(
    triangles: &mut Vec<[u32; 3]>,
    ring: &Ring,
    side: Side,
) -> Result<(), AllocError>
    requires border { IsBorder ring.now }
    ensures { OnOk result (triangles.new.items ≡ triangles.old.items ++ stitches_along (walk_along ring.now side)) }
{
    for s in 0..stitches_of(ring, side) {
        triangles.push(stitch(ring, side, s))?;
    }
    Ok(())
}
