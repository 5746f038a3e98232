//! The parts that the stitches along the border of an active region make.

ghost use Rattle.std.specs.Prelude.{◌≡◌, ◌+◌, ◌^◌, ◌<◌, ◌++◌, ◌∷◌, [], IfOk, OnOk, length, reverse, false, pos, ◌+ℤ◌};
ghost use Rattle.clip_regions.specs.Regions.{IsWithin, is_empty, columns, rows};
ghost use Rattle.mesh_model.specs.Parts.{stitch_parts, corner_place, places_in_column, places_in_row, stitch_part};
ghost use Rattle.mesh_model.specs.declared.shapes.PartKind.TheVariants.{StitchNorth, StitchEast, StitchSouth, StitchWest};
ghost use Rattle.mesh_plain.specs.Blocks.{HasPlacedCorners};

use crate::cells::{cell_at, columns, rows};
use crate::parts::{PlainPart, push_part};
use crate::stitches::stitches_along;
use clip_regions::Region;
use mesh_model::{PartKind, Vertex};
use mesh_plain_heights::corner_place;
use obj_frames::NoMemory;
use std::alloc::{AllocError, Global};

// The place of the vertex at the cell in column u and row v of a region, counted from its corner.
fn place_in(vertices: &[Vertex], level: u8, active: &Region, v: u32, u: u32) -> u32
    requires few { length vertices.now < 2 ^ 31 }
    requires level { level < 12 }
    requires corners { HasPlacedCorners level active.now }
    requires column { u < columns active.now }
    requires row { v < rows active.now }
    ensures { result ≡ corner_place vertices.now level (active.now.x0 +ℤ pos u) (active.now.y0 +ℤ pos v) }
{
    corner_place(vertices, &cell_at(level, active, v, u))
}

// The places of the vertices along row v of a region, from the west.
fn places_in_row(
    alloc: Global,
    vertices: &[Vertex],
    level: u8,
    active: &Region,
    v: u32,
) -> Result<Vec<u32>, AllocError>
    requires few { length vertices.now < 2 ^ 31 }
    requires level { level < 12 }
    requires corners { HasPlacedCorners level active.now }
    requires row { v < rows active.now }
    ensures { IfOk result (λ places. places.items ≡
        places_in_row vertices.now level active.now (active.now.y0 +ℤ pos v)) }
{
    let mut places = Vec::new(alloc);
    for u in 0..columns(active) {
        places.push(place_in(vertices, level, active, v, u))?;
    }
    Ok(places)
}

// The places of the vertices along column u of a region, from the north.
fn places_in_column(
    alloc: Global,
    vertices: &[Vertex],
    level: u8,
    active: &Region,
    u: u32,
) -> Result<Vec<u32>, AllocError>
    requires few { length vertices.now < 2 ^ 31 }
    requires level { level < 12 }
    requires corners { HasPlacedCorners level active.now }
    requires column { u < columns active.now }
    ensures { IfOk result (λ places. places.items ≡
        places_in_column vertices.now level active.now (active.now.x0 +ℤ pos u)) }
{
    let mut places = Vec::new(alloc);
    for v in 0..rows(active) {
        places.push(place_in(vertices, level, active, v, u))?;
    }
    Ok(places)
}

// The part of the stitches along a walk.
fn stitch_part(
    alloc: Global,
    level: u8,
    kind: PartKind,
    walk: &[u32],
) -> Result<PlainPart, NoMemory>
    ensures { IfOk result (λ part. part ≡ stitch_part level kind walk.now) }
{
    let triangles = stitches_along(alloc, walk)?;
    Ok(PlainPart {
        level,
        kind,
        triangles,
    })
}

// The stitches along the northern border, from the west.
fn north_part(
    alloc: Global,
    vertices: &[Vertex],
    level: u8,
    active: &Region,
) -> Result<PlainPart, NoMemory>
    requires few { length vertices.now < 2 ^ 31 }
    requires level { level < 12 }
    requires corners { HasPlacedCorners level active.now }
    requires some { is_empty active.now ≡ false }
    ensures { IfOk result (λ part. part ≡
        stitch_part level StitchNorth (places_in_row vertices.now level active.now active.now.y0)) }
{
    let walk = places_in_row(alloc, vertices, level, active, 0)?;
    stitch_part(alloc, level, PartKind::StitchNorth, walk.as_slice())
}

// The stitches along the eastern border, from the north.
fn east_part(
    alloc: Global,
    vertices: &[Vertex],
    level: u8,
    active: &Region,
) -> Result<PlainPart, NoMemory>
    requires few { length vertices.now < 2 ^ 31 }
    requires level { level < 12 }
    requires corners { HasPlacedCorners level active.now }
    requires some { is_empty active.now ≡ false }
    ensures { IfOk result (λ part. part ≡
        stitch_part level StitchEast (places_in_column vertices.now level active.now active.now.x1)) }
{
    let last = columns(active) - 1;
    let walk = places_in_column(alloc, vertices, level, active, last)?;
    stitch_part(alloc, level, PartKind::StitchEast, walk.as_slice())
}

// The stitches along the southern border, from the east.
fn south_part(
    alloc: Global,
    vertices: &[Vertex],
    level: u8,
    active: &Region,
) -> Result<PlainPart, NoMemory>
    requires few { length vertices.now < 2 ^ 31 }
    requires level { level < 12 }
    requires corners { HasPlacedCorners level active.now }
    requires some { is_empty active.now ≡ false }
    ensures { IfOk result (λ part. part ≡
        stitch_part level StitchSouth
        (reverse (places_in_row vertices.now level active.now active.now.y1))) }
{
    let last = rows(active) - 1;
    let mut walk = places_in_row(alloc, vertices, level, active, last)?;
    walk.reverse();
    stitch_part(alloc, level, PartKind::StitchSouth, walk.as_slice())
}

// The stitches along the western border, from the south.
fn west_part(
    alloc: Global,
    vertices: &[Vertex],
    level: u8,
    active: &Region,
) -> Result<PlainPart, NoMemory>
    requires few { length vertices.now < 2 ^ 31 }
    requires level { level < 12 }
    requires corners { HasPlacedCorners level active.now }
    requires some { is_empty active.now ≡ false }
    ensures { IfOk result (λ part. part ≡
        stitch_part level StitchWest
        (reverse (places_in_column vertices.now level active.now active.now.x0))) }
{
    let mut walk = places_in_column(alloc, vertices, level, active, 0)?;
    walk.reverse();
    stitch_part(alloc, level, PartKind::StitchWest, walk.as_slice())
}

// Adds the four parts along the border of a region that has a cell.
fn add_border(
    alloc: Global,
    parts: &mut Vec<PlainPart>,
    vertices: &[Vertex],
    level: u8,
    active: &Region,
) -> Result<(), NoMemory>
    requires few { length vertices.now < 2 ^ 31 }
    requires level { level < 12 }
    requires corners { HasPlacedCorners level active.now }
    requires some { is_empty active.now ≡ false }
    ensures { OnOk result (parts.new.items ≡ parts.old.items ++ stitch_parts vertices.now level active.now) }
{
    push_part(parts, north_part(alloc, vertices, level, active)?)?;
    push_part(parts, east_part(alloc, vertices, level, active)?)?;
    push_part(parts, south_part(alloc, vertices, level, active)?)?;
    push_part(parts, west_part(alloc, vertices, level, active)?)?;
    Ok(())
}

// Adds the parts that the stitches of a level make: none where its active region is empty.
pub(crate) fn add_stitch_parts(
    alloc: Global,
    parts: &mut Vec<PlainPart>,
    vertices: &[Vertex],
    level: u8,
    active: &Region,
) -> Result<(), NoMemory>
    requires few { length vertices.now < 2 ^ 31 }
    requires level { level < 12 }
    requires corners { HasPlacedCorners level active.now }
    ensures { OnOk result (parts.new.items ≡ parts.old.items ++ stitch_parts vertices.now level active.now) }
{
    if active.is_empty() {
        Ok(())
    } else {
        add_border(alloc, parts, vertices, level, active)
    }
}
