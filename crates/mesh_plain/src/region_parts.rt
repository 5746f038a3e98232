//! The parts of a mesh in their order.

ghost use Rattle.std.specs.Prelude.{◌≡◌, ◌^◌, ◌<◌, ◌≤◌, ◌++◌, IfOk, OnOk, length};
ghost use Rattle.clip_regions.specs.Regions.{empty_region};
ghost use Rattle.mesh_model.specs.Parts.{square_parts_from, stitch_parts_from, all_stitch_parts, parts_of_regions};
ghost use Rattle.mesh_plain.specs.Frames.{IsDrawn, AreDrawn};

use crate::parts::PlainPart;
use crate::square_parts::add_square_parts;
use crate::stitch_parts::add_stitch_parts;
use clip_regions::Region;
use mesh_model::Vertex;
use obj_frames::NoMemory;
use std::alloc::Global;

// Adds the square parts of each level, from the finest.
fn add_squares(
    alloc: Global,
    parts: &mut Vec<PlainPart>,
    vertices: &[Vertex],
    actives: &[Region],
) -> Result<(), NoMemory>
    requires few { length vertices.now < 2 ^ 31 }
    requires levels { length actives.now ≤ 12 }
    requires drawn { AreDrawn 0 actives.now }
    ensures { OnOk result (parts.new.items ≡ parts.old.items ++
        square_parts_from vertices.now 0 empty_region actives.now) }
{
    let mut finer = Region::empty();
    let mut level = 0;
    for active in actives {
        add_square_parts(alloc, parts, vertices, level, &finer, active)?;
        finer = *active;
        level += 1;
    }
    Ok(())
}

// Adds the stitch parts of each level but the coarsest, from the finest, after which the others come.
fn add_stitches_from(
    alloc: Global,
    parts: &mut Vec<PlainPart>,
    vertices: &[Vertex],
    finest: &Region,
    coarser: &[Region],
) -> Result<(), NoMemory>
    requires few { length vertices.now < 2 ^ 31 }
    requires levels { length coarser.now < 12 }
    requires finest { IsDrawn 0 finest.now }
    requires coarser { AreDrawn 1 coarser.now }
    ensures { OnOk result (parts.new.items ≡ parts.old.items ++
        stitch_parts_from vertices.now 0 finest.now coarser.now) }
{
    let mut active = *finest;
    let mut level = 0;
    for next in coarser {
        add_stitch_parts(alloc, parts, vertices, level, &active)?;
        active = *next;
        level += 1;
    }
    Ok(())
}

// Adds the stitch parts of each level, from the finest: the coarsest has none.
fn add_stitches(
    alloc: Global,
    parts: &mut Vec<PlainPart>,
    vertices: &[Vertex],
    actives: &[Region],
) -> Result<(), NoMemory>
    requires few { length vertices.now < 2 ^ 31 }
    requires levels { length actives.now ≤ 12 }
    requires drawn { AreDrawn 0 actives.now }
    ensures { OnOk result (parts.new.items ≡ parts.old.items ++ all_stitch_parts vertices.now actives.now) }
{
    if actives.is_empty() {
        Ok(())
    } else {
        add_stitches_from(alloc, parts, vertices, &actives[0], &actives[1..])
    }
}

/// The parts of the mesh of some active regions, the finest first: the squares of each level, and then
/// the stitches of each level.
///
/// The vertices are those of the mesh; the triangles name them by their places.
pub fn parts_of_regions(
    alloc: Global,
    vertices: &[Vertex],
    actives: &[Region],
) -> Result<Vec<PlainPart>, NoMemory>
    requires few { length vertices.now < 2 ^ 31 }
    requires levels { length actives.now ≤ 12 }
    requires drawn { AreDrawn 0 actives.now }
    ensures value { IfOk result (λ parts. parts.items ≡ parts_of_regions vertices.now actives.now) }
{
    let mut parts = Vec::new(alloc);
    add_squares(alloc, &mut parts, vertices, actives)?;
    add_stitches(alloc, &mut parts, vertices, actives)?;
    Ok(parts)
}
