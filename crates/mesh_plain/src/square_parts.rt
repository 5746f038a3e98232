//! The parts that the squares of a level make.

ghost use Rattle.std.specs.Prelude.{◌≡◌, ◌+◌, ◌^◌, ◌<◌, ◌++◌, ◌∷◌, [], IfOk, OnOk, flat_map, length, false};
ghost use Rattle.clip_regions.specs.Regions.{IsWithin, is_empty, cells};
ghost use Rattle.mesh_model.specs.Vertices.{hole};
ghost use Rattle.mesh_model.specs.Parts.{corners_at, squares_in, square_part, square_parts, square_triangles};
ghost use Rattle.mesh_model.specs.declared.shapes.PartKind.TheVariants.{Whole, North, West, East, South};
ghost use Rattle.mesh_plain.specs.Blocks.{HasPlacedCorners};
ghost use Rattle.mesh_plain_heights.specs.Placed.{ArePlaced};
ghost use Rattle.mesh_plain.specs.Rings.{IsActive};

use crate::parts::{PlainPart, push_part};
use crate::rings::hole;
use crate::triangles::block_triangles;
use clip_regions::Region;
use mesh_model::{PartKind, Vertex};
use obj_frames::NoMemory;
use std::alloc::Global;

// The north-west corners of the squares of a block.
fn squares_of(block: &Region) -> Region
    requires { IsWithin (2 ^ 24) block.now }
    ensures { result ≡ squares_in block.now }
{
    Region {
        x0: block.x0,
        y0: block.y0,
        x1: block.x1 - 1,
        y1: block.y1 - 1,
    }
}

// The triangles of the squares with these north-west corners, of which there may be none.
fn triangles_of(
    alloc: Global,
    vertices: &[Vertex],
    level: u8,
    squares: &Region,
) -> Result<Vec<[u32; 3]>, NoMemory>
    requires few { length vertices.now < 2 ^ 31 }
    requires level { level < 12 }
    requires placed { ArePlaced level squares.now }
    ensures { IfOk result (λ triangles. triangles.items ≡
        flat_map (λ cell. square_triangles vertices.now level cell.0 cell.1) (cells squares.now)) }
{
    if squares.is_empty() {
        Ok(Vec::new(alloc))
    } else {
        block_triangles(alloc, vertices, level, squares)
    }
}

// The part of the squares of a block.
fn block_part(
    alloc: Global,
    vertices: &[Vertex],
    level: u8,
    kind: PartKind,
    block: &Region,
) -> Result<PlainPart, NoMemory>
    requires few { length vertices.now < 2 ^ 31 }
    requires level { level < 12 }
    requires corners { HasPlacedCorners level block.now }
    ensures { IfOk result (λ part. part ≡
        square_part vertices.now level kind (squares_in block.now)) }
{
    let squares = squares_of(block);
    let triangles = triangles_of(alloc, vertices, level, &squares)?;
    Ok(PlainPart {
        level,
        kind,
        triangles,
    })
}

// Adds the part of the squares of a block.
fn add_block(
    alloc: Global,
    parts: &mut Vec<PlainPart>,
    vertices: &[Vertex],
    level: u8,
    kind: PartKind,
    block: &Region,
) -> Result<(), NoMemory>
    requires few { length vertices.now < 2 ^ 31 }
    requires level { level < 12 }
    requires corners { HasPlacedCorners level block.now }
    ensures { OnOk result (parts.new.items ≡ parts.old.items ++
        square_part vertices.now level kind
        (squares_in block.now) ∷ []) }
{
    let part = block_part(alloc, vertices, level, kind, block)?;
    push_part(parts, part)?;
    Ok(())
}

// The block north of a gap, over the region's whole width.
fn north_of(active: &Region, gap: &Region) -> Region
    ensures { result ≡ record { x0 = active.now.x0; y0 = active.now.y0; x1 = active.now.x1; y1 = gap.now.y0 } }
{
    Region {
        x0: active.x0,
        y0: active.y0,
        x1: active.x1,
        y1: gap.y0,
    }
}

// The block west of a gap, over the gap's rows.
fn west_of(active: &Region, gap: &Region) -> Region
    ensures { result ≡ record { x0 = active.now.x0; y0 = gap.now.y0; x1 = gap.now.x0; y1 = gap.now.y1 } }
{
    Region {
        x0: active.x0,
        y0: gap.y0,
        x1: gap.x0,
        y1: gap.y1,
    }
}

// The block east of a gap, over the gap's rows.
fn east_of(active: &Region, gap: &Region) -> Region
    ensures { result ≡ record { x0 = gap.now.x1; y0 = gap.now.y0; x1 = active.now.x1; y1 = gap.now.y1 } }
{
    Region {
        x0: gap.x1,
        y0: gap.y0,
        x1: active.x1,
        y1: gap.y1,
    }
}

// The block south of a gap, over the region's whole width.
fn south_of(active: &Region, gap: &Region) -> Region
    ensures { result ≡ record { x0 = active.now.x0; y0 = gap.now.y1; x1 = active.now.x1; y1 = active.now.y1 } }
{
    Region {
        x0: active.x0,
        y0: gap.y1,
        x1: active.x1,
        y1: active.y1,
    }
}

// Adds the parts north, west, east and south of a gap.
fn add_around(
    alloc: Global,
    parts: &mut Vec<PlainPart>,
    vertices: &[Vertex],
    level: u8,
    active: &Region,
    gap: &Region,
) -> Result<(), NoMemory>
    requires few { length vertices.now < 2 ^ 31 }
    requires level { level < 12 }
    requires active { HasPlacedCorners level active.now }
    requires gap { HasPlacedCorners level gap.now }
    ensures { OnOk result (parts.new.items ≡ parts.old.items ++
        square_part vertices.now level North
        (squares_in (corners_at active.now.x0 active.now.y0 active.now.x1 gap.now.y0))
        ∷ square_part vertices.now level West
        (squares_in (corners_at active.now.x0 gap.now.y0 gap.now.x0 gap.now.y1))
        ∷ square_part vertices.now level East
        (squares_in (corners_at gap.now.x1 gap.now.y0 active.now.x1 gap.now.y1))
        ∷ square_part vertices.now level South
        (squares_in (corners_at active.now.x0 gap.now.y1 active.now.x1 active.now.y1))
        ∷ []) }
{
    let north = north_of(active, gap);
    let west = west_of(active, gap);
    let east = east_of(active, gap);
    let south = south_of(active, gap);
    add_block(alloc, parts, vertices, level, PartKind::North, &north)?;
    add_block(alloc, parts, vertices, level, PartKind::West, &west)?;
    add_block(alloc, parts, vertices, level, PartKind::East, &east)?;
    add_block(alloc, parts, vertices, level, PartKind::South, &south)
}

// Adds the parts that the squares of a level make: none where its active region is empty, one where it
// has no hole, and else four.
pub(crate) fn add_square_parts(
    alloc: Global,
    parts: &mut Vec<PlainPart>,
    vertices: &[Vertex],
    level: u8,
    finer: &Region,
    active: &Region,
) -> Result<(), NoMemory>
    requires few { length vertices.now < 2 ^ 31 }
    requires level { level < 12 }
    requires finer { IsActive finer.now }
    requires gap { is_empty (hole finer.now) ≡ false → HasPlacedCorners level (hole finer.now) }
    requires active { HasPlacedCorners level active.now }
    ensures { OnOk result (parts.new.items ≡ parts.old.items ++ square_parts vertices.now level finer.now active.now) }
{
    let gap = hole(finer);
    if active.is_empty() {
        Ok(())
    } else if gap.is_empty() {
        add_block(alloc, parts, vertices, level, PartKind::Whole, active)
    } else {
        add_around(alloc, parts, vertices, level, active, &gap)
    }
}
