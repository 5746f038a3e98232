//! The vertices of the rings, level by level and row by row.

ghost use Rattle.std.specs.Prelude.{◌≡◌, ◌+◌, ◌<◌, ◌≤◌, ◌^◌, ◌++◌, length, OnOk, IfOk, ◌&&◌, pos, neg_ℤ, ◌+ℤ◌, ◌*ℤ◌, ◌≤ℤ◌, int_le};
ghost use Rattle.std.specs.Int.{int_gap};
ghost use Rattle.clip_regions.specs.Regions.{columns, rows};
ghost use Rattle.plan_model.specs.Limits.{IsSize};
ghost use Rattle.mesh_model.specs.Height.{active_at};
ghost use Rattle.mesh_model.specs.Vertices.{vertex_at};
ghost use Rattle.active_region.specs.Active.{AreActive};
ghost use Rattle.mesh_laws.specs.Rings;
ghost use Rattle.mesh_laws.specs.Rings.{ring_row};
ghost use Rattle.mesh_laws.specs.Conditions.{IsCell, IsNear, IsSmall, IsRing, IsBefore};
ghost use Rattle.ring_mesh.specs.Listed.{vertices_at, ring_cells, vertices_left, HasHeights, HasRun};
ghost use Rattle.ring_mesh.specs.Added.{ring_before};

use crate::heights::{Heights, vertex_height};
use crate::places::{next_ring, no_ring, ring_size};
use crate::sizes::{columns, rows};
use active_region::Actives;
use clip_regions::Region;
use mesh_laws::{
    Ring, actives_are_in_reach, holes_are_in_regions, rings_are_linked, rings_have_rows,
};
use obj_frames::Vertex;
use std::alloc::{AllocError, Global};

// The distance in samples of two cells of a level that are next to each other.
fn spacing(level: u8) -> i32
    requires { level ≤ 11 }
    ensures value { result ≡ pos (2 ^ level) }
{
    1 << level
}

// The column or row of the sample at which a cell of a level stands.
fn position(level: u8, cell: i32) -> i32
    requires level { level ≤ 11 }
    requires near { IsNear level cell }
    ensures value { result ≡ cell *ℤ pos (2 ^ level) }
{
    cell * spacing(level)
}

// The vertex at a cell of a level's active region.
#[tactic(auto, unfolding(mesh_model::specs::Vertices::vertex_at))]
fn vertex<G: Heights>(heights: &G, k: u8, actives: &Actives, level: u8, i: i32, j: i32) -> Vertex
    requires heights { HasHeights k actives.now level (G.regions heights.now) }
    requires cell { IsCell (active_at actives.now level) i j }
    ensures value { result ≡ vertex_at (G.terrain heights.now) k actives.now (record { level = level; i = i; j = j }) }
{
    actives_are_in_reach();
    holes_are_in_regions();
    Vertex {
        x: position(level, i),
        z: position(level, j),
        height: vertex_height(heights, k, actives, level, i, j),
    }
}

// Cells of one row.
#[derive(Clone, Copy)]
struct Run {
    // The column of the first cell.
    i: i32,
    // The row.
    j: i32,
    // How many cells there are.
    count: u32,
}

// The vertex at cell `u` of a run, counted from its first cell.
fn vertex_of_run<G: Heights>(
    heights: &G,
    k: u8,
    actives: &Actives,
    level: u8,
    run: &Run,
    u: u32,
) -> Vertex
    requires heights { HasHeights k actives.now level (G.regions heights.now) }
    requires run { HasRun (active_at actives.now level) run.now.i run.now.j run.now.count }
    requires few { run.now.count ≤ 255 }
    requires cell { u < run.now.count }
    ensures { result ≡ vertex_at (G.terrain heights.now) k actives.now
        (record { level = level; i = run.now.i +ℤ pos u; j = run.now.j }) }
{
    vertex(heights, k, actives, level, run.i + u as i32, run.j)
}

// Adds the vertices of a run of cells of a level.
#[tactic(auto, unfolding(crate::specs::Listed::vertices_at, mesh_laws::specs::Rings::run))]
fn add_run<G: Heights>(
    vertices: &mut Vec<Vertex>,
    heights: &G,
    k: u8,
    actives: &Actives,
    level: u8,
    run: &Run,
) -> Result<(), AllocError>
    requires heights { HasHeights k actives.now level (G.regions heights.now) }
    requires run { HasRun (active_at actives.now level) run.now.i run.now.j run.now.count }
    requires few { run.now.count ≤ 255 }
    ensures { OnOk result (vertices.new.items ≡ vertices.old.items ++
        vertices_at (G.terrain heights.now) k actives.now level (Rings.run run.now.i run.now.j run.now.count)) }
{
    for u in 0..run.count {
        vertices.push(vertex_of_run(heights, k, actives, level, run, u))?;
    }
    Ok(())
}

// Whether a region has this row.
fn has_row(region: &Region, j: i32) -> bool
    ensures { result ≡ (int_le region.now.y0 j && int_le j region.now.y1) }
{
    region.y0 <= j && j <= region.y1
}

// All cells of row `v` of a region, counted from its first row.
fn row_of(region: &Region, v: u32) -> Run
    requires small { IsSmall region.now }
    requires row { v < rows region.now }
    requires few { v < 255 }
    ensures i { result.i ≡ region.now.x0 }
    ensures j { result.j ≡ region.now.y0 +ℤ pos v }
    ensures count { result.count ≡ columns region.now }
{
    Run {
        i: region.x0,
        j: region.y0 + v as i32,
        count: columns(region),
    }
}

// What of a row of a region lies west of a hole.
fn west_of(row: &Run, hole: &Region) -> Run
    requires order { row.now.i ≤ℤ hole.now.x0 }
    requires low { neg_ℤ (pos (2 ^ 24)) ≤ℤ row.now.i }
    requires high { hole.now.x0 ≤ℤ pos (2 ^ 24) }
    ensures i { result.i ≡ row.now.i }
    ensures j { result.j ≡ row.now.j }
    ensures count { result.count ≡ int_gap row.now.i hole.now.x0 }
{
    Run {
        count: (hole.x0 - row.i) as u32,
        ..*row
    }
}

// What of a row of a region lies east of a hole.
fn east_of(row: &Run, region: &Region, hole: &Region) -> Run
    requires order { hole.now.x1 ≤ℤ region.now.x1 }
    requires low { neg_ℤ (pos (2 ^ 24)) ≤ℤ hole.now.x1 }
    requires high { region.now.x1 ≤ℤ pos (2 ^ 24) }
    ensures i { result.i ≡ hole.now.x1 +ℤ pos 1 }
    ensures j { result.j ≡ row.now.j }
    ensures count { result.count ≡ int_gap hole.now.x1 region.now.x1 }
{
    Run {
        i: hole.x1 + 1,
        count: (region.x1 - hole.x1) as u32,
        ..*row
    }
}

// Adds the vertices of row `v` of a ring, counted from its first row: all of the row where it doesn't meet
// the hole, and else what lies west and east of the hole.
fn add_row<G: Heights>(
    vertices: &mut Vec<Vertex>,
    heights: &G,
    k: u8,
    actives: &Actives,
    level: u8,
    ring: &Ring,
    v: u32,
) -> Result<(), AllocError>
    requires heights { HasHeights k actives.now level (G.regions heights.now) }
    requires ring { IsRing ring.now }
    requires region { ring.now.active ≡ active_at actives.now level }
    requires row { v < rows ring.now.active }
    ensures { OnOk result (vertices.new.items ≡ vertices.old.items ++
        vertices_at (G.terrain heights.now) k actives.now level (ring_row ring.now.hole ring.now.active
        (ring.now.active.y0 +ℤ pos v))) }
{
    rings_have_rows();
    let row = row_of(&ring.active, v);
    if !has_row(&ring.hole, row.j) {
        return add_run(vertices, heights, k, actives, level, &row);
    }
    let west = west_of(&row, &ring.hole);
    let east = east_of(&row, &ring.active, &ring.hole);
    add_run(vertices, heights, k, actives, level, &west)?;
    add_run(vertices, heights, k, actives, level, &east)
}

// Adds the vertices of a ring, row by row.
fn add_ring<G: Heights>(
    vertices: &mut Vec<Vertex>,
    heights: &G,
    k: u8,
    actives: &Actives,
    level: u8,
    ring: &Ring,
) -> Result<(), AllocError>
    requires heights { HasHeights k actives.now level (G.regions heights.now) }
    requires ring { IsRing ring.now }
    requires region { ring.now.active ≡ active_at actives.now level }
    ensures { OnOk result (vertices.new.items ≡ vertices.old.items ++
        vertices_at (G.terrain heights.now) k actives.now level (ring_cells ring.now)) }
{
    for v in 0..rows(&ring.active) {
        add_row(vertices, heights, k, actives, level, ring, v)?;
    }
    Ok(())
}

// The ring that stands before this level of a frame's active regions.
pub(crate) fn ring_before(actives: &Actives, level: u8) -> Ring
    requires { level ≤ length actives.now }
    ensures ring { result ≡ ring_before actives.now level }
    ensures before { IsBefore actives.now level result }
    ensures active { AreActive actives.now }
{
    rings_are_linked();
    let _levels = actives.levels();
    let mut finer = no_ring();
    for n in 0..level {
        finer = next_ring(&finer, actives.at(n));
    }
    finer
}

// How many vertices the levels of a frame's active regions list that are finer than this one. There are fewer than
// twice as many triangles, those of the stitches included.
pub(crate) fn vertices_before(actives: &Actives, level: u8) -> usize
    requires { level ≤ length actives.now }
    ensures few { result < 2 ^ 31 }
    ensures active { AreActive actives.now }
{
    let finer = ring_before(actives, level);
    finer.first as usize + ring_size(&finer) as usize
}

/// How many vertices the mesh of a frame's active regions has.
pub fn vertex_count(actives: &Actives) -> usize
    ensures few { result < 2 ^ 31 }
{
    vertices_before(actives, actives.levels())
}

// The vertices of the levels of a frame's active regions from one to the last before another, the finest first, in a
// list with this room.
pub(crate) fn ring_vertices<G: Heights>(
    alloc: Global,
    room: usize,
    heights: &G,
    k: u8,
    actives: &Actives,
    from: u8,
    to: u8,
) -> Result<Vec<Vertex>, AllocError>
    requires k { IsSize k }
    requires regions { G.regions heights.now ≡ actives.now }
    requires order { from ≤ to }
    requires levels { to ≤ length actives.now }
    ensures value { IfOk result (λ vertices.
        vertices.items ++ vertices_left (G.terrain heights.now) k actives.now to
        ≡ vertices_left (G.terrain heights.now) k actives.now from) }
{
    rings_are_linked();
    rings_have_rows();
    let mut vertices = Vec::with_capacity(alloc, room)?;
    let mut finer = ring_before(actives, from);
    for level in from..to {
        let ring = next_ring(&finer, actives.at(level));
        add_ring(&mut vertices, heights, k, actives, level, &ring)?;
        finer = ring;
    }
    Ok(vertices)
}
