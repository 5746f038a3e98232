//! The parts of the rings, with their triangles and bounds.

ghost use Rattle.std.specs.Prelude.{◌≡◌, ◌+◌, ◌^◌, ◌<◌, ◌≤◌, ◌++◌, ◌∷◌, [], false, OnOk, IfOk, length, drop, pos, neg_ℤ, ◌-ℤ◌, ◌≤ℤ◌};
ghost use Rattle.clip_regions.specs.Regions.{is_empty, IsWithin};
ghost use Rattle.mesh_model.specs.declared.shapes.PartKind.TheVariants.{Whole, North, West, East, South};
ghost use Rattle.mesh_model.specs.Parts.{squares_in};
ghost use Rattle.mesh_model.specs.Mesh.{part_at};
ghost use Rattle.mesh_laws.specs.Rings.{ring_triangles, ring_part, ring_parts};
ghost use Rattle.mesh_laws.specs.Conditions.{IsCut, IsSmall, AreLinked};
ghost use Rattle.ring_mesh.specs.Squares.{HasSquares};
ghost use Rattle.ring_mesh.specs.Added.{parts_left, AreFaces};
ghost use Rattle.ring_mesh.specs.Added.{Adds, triangles_of, HasBlock, north_block, west_block, east_block, south_block, block_part, parts_around};

use crate::bounds::bounds_of;
use crate::places::next_ring;
use crate::squares::add_squares;
use crate::vertices::ring_before;
use active_region::Actives;
use clip_regions::Region;
use mesh_laws::{Ring, rings_are_linked};
use obj_frames::{NoMemory, Part, PartKind, Vertex};
use std::alloc::{AllocError, Global};

/// The triangles of a mesh and the parts that they make up.
#[derive(Drop)]
pub struct Faces {
    /// The triangles, part by part, each as the places of its three vertices counted from 0.
    pub triangles: Vec<[u32; 3]>,
    /// The parts, in the order of their triangles.
    pub parts: Vec<Part>,
}

// The part of the triangles from a first one on.
#[tactic(auto, unfolding(mesh_model::specs::Mesh::part_at))]
fn part_of(vertices: &[Vertex], triangles: &[[u32; 3]], level: u8, kind: PartKind) -> Part
    requires few { length triangles.now < 2 ^ 31 }
    ensures { result ≡ part_at vertices.now 0 (record { level = level; kind = kind; triangles = triangles.now }) }
{
    Part {
        level,
        kind,
        first: 0,
        count: triangles.len() as u32,
        bounds: bounds_of(vertices, triangles),
    }
}

// Adds a part.
fn push_part(parts: &mut Vec<Part>, part: Part) -> Result<(), AllocError>
    ensures { OnOk result (parts.new.items ≡ parts.old.items ++ part ∷ []) }
{
    parts.push(part)?;
    Ok(())
}

/// Adds the part of the triangles from this place on.
#[tactic(auto, unfolding(mesh_model::specs::Mesh::part_at))]
pub fn add_part(
    parts: &mut Vec<Part>,
    vertices: &[Vertex],
    triangles: &[[u32; 3]],
    first: usize,
    level: u8,
    kind: PartKind,
) -> Result<(), AllocError>
    requires few { length triangles.now < 2 ^ 31 }
    requires first { first ≤ length triangles.now }
    ensures { OnOk result (parts.new.items ≡ parts.old.items ++
        part_at vertices.now first
        (record { level = level; kind = kind; triangles = drop first triangles.now }) ∷ []) }
{
    let part = part_of(vertices, &triangles[first..], level, kind);
    push_part(
        parts,
        Part {
            first: first as u32,
            ..part
        },
    )
}

// Adds the part of the squares with these north-west corners.
fn add_squares_part(
    faces: &mut Faces,
    vertices: &[Vertex],
    finer: &Ring,
    ring: &Ring,
    level: u8,
    kind: PartKind,
    squares: &Region,
) -> Result<(), AllocError>
    requires linked { AreLinked finer.now ring.now }
    requires squares { HasSquares ring.now.active squares.now }
    requires few { length faces.old.triangles.items + length (ring_triangles finer.now ring.now squares.now) < 2 ^ 31 }
    ensures { OnOk result (Adds vertices.now (ring_part finer.now ring.now level kind squares.now ∷ [])
        faces.old.triangles.items faces.old.parts.items faces.new.triangles.items faces.new.parts.items) }
{
    let first = faces.triangles.len();
    add_squares(&mut faces.triangles, finer, ring, squares)?;
    add_part(
        &mut faces.parts,
        vertices,
        faces.triangles.as_slice(),
        first,
        level,
        kind,
    )
}

// The north-west corners of the squares of a block.
#[tactic(auto, unfolding(mesh_model::specs::Parts::squares_in))]
fn squares_of(block: &Region) -> Region
    requires { IsWithin (2 ^ 24) block.now }
    ensures { result ≡ squares_in block.now }
{
    Region {
        x0: block.x0,
        y0: block.y0,
        x1: block.x1 - 1,
        y1: block.y1 - 1,
    }
}

// The block north of a hole, over the region's whole width.
fn north_of(active: &Region, hole: &Region) -> Region
    ensures { result ≡ north_block active.now hole.now }
{
    Region {
        x0: active.x0,
        y0: active.y0,
        x1: active.x1,
        y1: hole.y0,
    }
}

// The block west of a hole, over the hole's rows.
fn west_of(active: &Region, hole: &Region) -> Region
    ensures { result ≡ west_block active.now hole.now }
{
    Region {
        x0: active.x0,
        y0: hole.y0,
        x1: hole.x0,
        y1: hole.y1,
    }
}

// The block east of a hole, over the hole's rows.
fn east_of(active: &Region, hole: &Region) -> Region
    ensures { result ≡ east_block active.now hole.now }
{
    Region {
        x0: hole.x1,
        y0: hole.y0,
        x1: active.x1,
        y1: hole.y1,
    }
}

// The block south of a hole, over the region's whole width.
fn south_of(active: &Region, hole: &Region) -> Region
    ensures { result ≡ south_block active.now hole.now }
{
    Region {
        x0: active.x0,
        y0: hole.y1,
        x1: active.x1,
        y1: active.y1,
    }
}

// Adds the part of the squares of a block.
fn add_block(
    faces: &mut Faces,
    vertices: &[Vertex],
    finer: &Ring,
    ring: &Ring,
    level: u8,
    kind: PartKind,
    block: &Region,
) -> Result<(), AllocError>
    requires linked { AreLinked finer.now ring.now }
    requires block { HasBlock ring.now.active block.now }
    requires few { length faces.old.triangles.items +
        length (triangles_of (block_part finer.now ring.now level kind block.now ∷ [])) < 2 ^ 31 }
    ensures { OnOk result (Adds vertices.now (block_part finer.now ring.now level kind block.now ∷ [])
        faces.old.triangles.items faces.old.parts.items faces.new.triangles.items faces.new.parts.items) }
{
    let squares = squares_of(block);
    add_squares_part(faces, vertices, finer, ring, level, kind, &squares)
}

// Adds the parts north, west, east and south of a hole.
fn add_around(
    faces: &mut Faces,
    vertices: &[Vertex],
    finer: &Ring,
    ring: &Ring,
    level: u8,
) -> Result<(), AllocError>
    requires linked { AreLinked finer.now ring.now }
    requires cut { IsCut ring.now.active ring.now.hole }
    requires few { length faces.old.triangles.items +
        length (triangles_of (parts_around level finer.now ring.now)) < 2 ^ 31 }
    ensures { OnOk result (Adds vertices.now (parts_around level finer.now ring.now)
        faces.old.triangles.items faces.old.parts.items faces.new.triangles.items faces.new.parts.items) }
{
    let north = north_of(&ring.active, &ring.hole);
    let west = west_of(&ring.active, &ring.hole);
    let east = east_of(&ring.active, &ring.hole);
    let south = south_of(&ring.active, &ring.hole);
    add_block(faces, vertices, finer, ring, level, PartKind::North, &north)?;
    add_block(faces, vertices, finer, ring, level, PartKind::West, &west)?;
    add_block(faces, vertices, finer, ring, level, PartKind::East, &east)?;
    add_block(faces, vertices, finer, ring, level, PartKind::South, &south)
}

// Adds the parts of a ring: none where its region is empty, one where it has no hole, and else four.
fn add_ring(
    faces: &mut Faces,
    vertices: &[Vertex],
    finer: &Ring,
    ring: &Ring,
    level: u8,
) -> Result<(), AllocError>
    requires linked { AreLinked finer.now ring.now }
    requires few { length faces.old.triangles.items +
        length (triangles_of (ring_parts level finer.now ring.now)) < 2 ^ 31 }
    ensures { OnOk result (Adds vertices.now (ring_parts level finer.now ring.now)
        faces.old.triangles.items faces.old.parts.items faces.new.triangles.items faces.new.parts.items) }
{
    if ring.active.is_empty() {
        return Ok(());
    }
    if ring.hole.is_empty() {
        return add_block(
            faces,
            vertices,
            finer,
            ring,
            level,
            PartKind::Whole,
            &ring.active,
        );
    }
    add_around(faces, vertices, finer, ring, level)
}

// The triangles and the parts of the levels of a frame's active regions from one to the last before another, between
// vertices of which the finest level's come first. The parts count their triangles from the first of these levels on.
// The list of triangles has this room.
pub(crate) fn ring_faces(
    alloc: Global,
    room: usize,
    vertices: &[Vertex],
    actives: &Actives,
    from: u8,
    to: u8,
) -> Result<Faces, AllocError>
    requires few { length (triangles_of (parts_left actives.now 0)) < 2 ^ 31 }
    requires order { from ≤ to }
    requires levels { to ≤ length actives.now }
    ensures faces { IfOk result (λ faces.
        AreFaces vertices.now actives.now from to faces.triangles.items faces.parts.items) }
{
    rings_are_linked();
    let mut faces = Faces {
        triangles: Vec::with_capacity(alloc, room)?,
        parts: Vec::new(alloc),
    };
    let mut finer = ring_before(actives, from);
    for level in from..to {
        let ring = next_ring(&finer, actives.at(level));
        add_ring(&mut faces, vertices, &finer, &ring, level)?;
        finer = ring;
    }
    Ok(faces)
}
