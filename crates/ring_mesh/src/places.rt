//! The places of vertices, each computed from its cell's row and column.

ghost use Rattle.std.specs.Prelude.{◌≡◌, ◌+◌, ◌*◌, ◌^◌, ◌<◌, ◌≤◌, min, IsTrue, true, false, pos, neg_ℤ, ◌+ℤ◌, ◌*ℤ◌, ◌≤ℤ◌, if◌then◌else◌, int_lt};
ghost use Rattle.std.specs.Int.{int_gap};
ghost use Rattle.clip_regions.specs.Regions.{contains, IsWithin, rows};
ghost use Rattle.plan_model.specs.Laws.{IsEvenOrEmpty};
ghost use Rattle.mesh_model.specs.Vertices.{hole};
ghost use Rattle.mesh_laws.specs.Rings.{corner_of, listed_before, next_ring, no_ring, passed_rows, place_in, ring_size};
ghost use Rattle.mesh_laws.specs.Conditions.{IsCell, IsSmall, IsRing, AreLinked};

use crate::sizes::{area, columns, product, rows};
use clip_regions::Region;
use mesh_laws::{Ring, holes_are_in_regions, rings_are_linked};

/// The ring before the finest one, which has no cell.
pub fn no_ring() -> Ring
    ensures value { result ≡ no_ring }
{
    Ring {
        active: Region::empty(),
        hole: Region::empty(),
        first: 0,
    }
}

// What an active region leaves out of the next coarser one.
#[tactic(auto, unfolding(mesh_model::specs::Vertices::hole))]
fn hole(finer: Region) -> Region
    requires placed { IsWithin (2 ^ 24) finer }
    requires even { IsEvenOrEmpty finer }
    ensures value { result ≡ hole finer }
{
    if finer.is_empty() {
        Region::empty()
    } else {
        finer.halve()
    }
}

// How many vertices a ring lists.
pub(crate) fn ring_size(ring: &Ring) -> u32
    requires { IsRing ring.now }
    ensures value { result ≡ ring_size ring.now }
    ensures few { result ≤ 65025 }
{
    holes_are_in_regions();
    area(&ring.active).saturating_sub(area(&ring.hole))
}

/// The ring of the next coarser level, whose active region this is.
#[tactic(auto, unfolding(mesh_laws::specs::Rings::next_ring))]
pub fn next_ring(finer: &Ring, active: Region) -> Ring
    requires ring { IsRing finer.now }
    requires even { IsEvenOrEmpty finer.now.active }
    ensures value { result ≡ next_ring finer.now active }
{
    Ring {
        active,
        hole: hole(finer.active),
        first: finer.first + ring_size(finer),
    }
}

// How many of the hole's rows end before this row.
#[tactic(auto, using(crate::proofs::Wider::within_more))]
fn rows_before(hole: &Region, row: i32) -> u32
    requires hole { IsSmall hole.now }
    requires low { neg_ℤ (pos (2 ^ 25)) ≤ℤ row }
    requires high { row ≤ℤ pos (2 ^ 25) }
    ensures value { result ≡ min (int_gap hole.now.y0 row) (rows hole.now) }
    ensures few { result ≤ 255 }
{
    if row <= hole.y0 {
        0
    } else {
        ((row - hole.y0) as u32).min(rows(hole))
    }
}

// How many rows of a hole end before the cell in column `i` and row `j`.
#[tactic(auto, unfolding(mesh_laws::specs::Rings::passed_rows))]
fn passed_rows(hole: &Region, i: i32, j: i32) -> u32
    requires hole { IsSmall hole.now }
    requires low { neg_ℤ (pos (2 ^ 24)) ≤ℤ j }
    requires high { j ≤ℤ pos (2 ^ 24) }
    ensures value { result ≡ passed_rows hole.now i j }
    ensures few { result ≤ 255 }
{
    if hole.x1 < i {
        rows_before(hole, j + 1)
    } else {
        rows_before(hole, j)
    }
}

// How far column `i` lies east of the region's first one.
fn column_in(region: &Region, i: i32, j: i32) -> u32
    requires region { IsSmall region.now }
    requires cell { IsCell region.now i j }
    ensures value { result ≡ int_gap region.now.x0 i }
    ensures few { result ≤ 254 }
{
    (i - region.x0) as u32
}

// How far row `j` lies south of the region's first one.
fn row_in(region: &Region, i: i32, j: i32) -> u32
    requires region { IsSmall region.now }
    requires cell { IsCell region.now i j }
    ensures value { result ≡ int_gap region.now.y0 j }
    ensures few { result ≤ 254 }
{
    (j - region.y0) as u32
}

// How many cells a ring lists before the cell in column `i` and row `j`.
#[tactic(auto, using(crate::proofs::Wider::within_more), unfolding(mesh_laws::specs::Rings::listed_before))]
fn listed_before(hole: &Region, active: &Region, i: i32, j: i32) -> u32
    requires hole { IsSmall hole.now }
    requires active { IsSmall active.now }
    requires cell { IsCell active.now i j }
    ensures value { result ≡ listed_before hole.now active.now i j }
    ensures few { result ≤ 2 ^ 17 }
{
    let whole = product(row_in(active, i, j), columns(active)) + column_in(active, i, j);
    whole.saturating_sub(product(columns(hole), passed_rows(hole, i, j)))
}

/// The place of the vertex at a cell that a ring lists: a cell of its active region outside its hole.
#[tactic(auto, unfolding(mesh_laws::specs::Rings::place_in))]
pub fn place_in(ring: &Ring, i: i32, j: i32) -> u32
    requires ring { IsRing ring.now }
    requires cell { IsCell ring.now.active i j }
    ensures value { result ≡ place_in ring.now i j }
    ensures few { result < 2 ^ 31 }
{
    holes_are_in_regions();
    ring.first + listed_before(&ring.hole, &ring.active, i, j)
}

/// The place of the vertex at a cell of a ring's active region that isn't strictly inside its hole: on the
/// hole's border it is a vertex of the finer ring.
#[tactic(auto, unfolding(mesh_laws::specs::Rings::corner_of))]
pub fn corner(finer: &Ring, ring: &Ring, i: i32, j: i32) -> u32
    requires linked { AreLinked finer.now ring.now }
    requires cell { IsCell ring.now.active i j }
    ensures value { result ≡ corner_of finer.now ring.now i j }
    ensures few { result < 2 ^ 31 }
{
    holes_are_in_regions();
    if ring.hole.contains(i, j) {
        place_in(finer, 2 * i, 2 * j)
    } else {
        place_in(ring, i, j)
    }
}
