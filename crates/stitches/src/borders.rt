//! The stitch parts along the border of an active region.

ghost use Rattle.std.specs.Prelude.{◌≡◌, ◌+◌, ◌^◌, ◌<◌, ◌∷◌, [], OnOk, length, drop};
ghost use Rattle.plan_model.specs.Laws.{IsEvenOrEmpty};
ghost use Rattle.mesh_laws.specs.Conditions.{IsRing};
ghost use Rattle.mesh_laws.specs.Stitches.{ring_stitches, all_ring_stitches};
ghost use Rattle.ring_mesh.specs.Added.{Adds, triangles_of};
ghost use Rattle.stitches.specs.Sides.{IsBorder, side_part};

use crate::sides::{Side, add_walk, kind_of};
use active_region::Actives;
use mesh_laws::{Ring, rings_are_linked};
use obj_frames::Vertex;
use ring_mesh::{Faces, add_part, next_ring, no_ring, parts_add_up};
use std::alloc::AllocError;

// Adds the part of the stitches along a side.
fn add_side(
    faces: &mut Faces,
    vertices: &[Vertex],
    ring: &Ring,
    level: u8,
    side: Side,
) -> Result<(), AllocError>
    requires border { IsBorder ring.now }
    requires few { length faces.old.triangles.items
        + length (triangles_of (side_part level ring.now side ∷ [])) < 2 ^ 31 }
    ensures { OnOk result (Adds vertices.now (side_part level ring.now side ∷ [])
        faces.old.triangles.items faces.old.parts.items faces.new.triangles.items faces.new.parts.items) }
{
    let first = faces.triangles.len();
    add_walk(&mut faces.triangles, ring, side)?;
    add_part(
        &mut faces.parts,
        vertices,
        faces.triangles.as_slice(),
        first,
        level,
        kind_of(side),
    )
}

// Adds the four parts along the border of a ring's region that has a cell.
fn add_sides(
    faces: &mut Faces,
    vertices: &[Vertex],
    ring: &Ring,
    level: u8,
) -> Result<(), AllocError>
    requires border { IsBorder ring.now }
    requires few { length faces.old.triangles.items + length (triangles_of (ring_stitches level ring.now)) < 2 ^ 31 }
    ensures { OnOk result (Adds vertices.now (ring_stitches level ring.now)
        faces.old.triangles.items faces.old.parts.items faces.new.triangles.items faces.new.parts.items) }
{
    parts_add_up();
    for side in [Side::North, Side::East, Side::South, Side::West] {
        add_side(faces, vertices, ring, level, side)?;
    }
    Ok(())
}

// Adds the parts along the border of a ring's region: none where it is empty.
fn add_border(
    faces: &mut Faces,
    vertices: &[Vertex],
    ring: &Ring,
    level: u8,
) -> Result<(), AllocError>
    requires ring { IsRing ring.now }
    requires even { IsEvenOrEmpty ring.now.active }
    requires few { length faces.old.triangles.items + length (triangles_of (ring_stitches level ring.now)) < 2 ^ 31 }
    ensures { OnOk result (Adds vertices.now (ring_stitches level ring.now)
        faces.old.triangles.items faces.old.parts.items faces.new.triangles.items faces.new.parts.items) }
{
    if ring.active.is_empty() {
        return Ok(());
    }
    add_sides(faces, vertices, ring, level)
}

// Adds the stitch parts of each level but the coarsest, from the finest on.
pub(crate) fn add_stitches(
    faces: &mut Faces,
    vertices: &[Vertex],
    actives: &Actives,
) -> Result<(), AllocError>
    requires few { length faces.old.triangles.items + length (triangles_of (all_ring_stitches actives.now)) < 2 ^ 31 }
    ensures { OnOk result (Adds vertices.now (all_ring_stitches actives.now)
        faces.old.triangles.items faces.old.parts.items faces.new.triangles.items faces.new.parts.items) }
{
    parts_add_up();
    rings_are_linked();
    let levels = actives.levels();
    let mut ring = next_ring(&no_ring(), actives.at(0));
    for level in 1..levels {
        add_border(faces, vertices, &ring, level - 1)?;
        ring = next_ring(&ring, actives.at(level));
    }
    Ok(())
}
