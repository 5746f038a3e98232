//! Runs of equal edges among sorted ones.

ghost use Rattle.std.specs.Prelude.{◌≡◌, ℕ, ◌+◌, ◌*◌, ◌/◌, ◌%◌, ◌<◌, ◌≤◌, ◌^◌, ◌==◌, ◌&&◌, ◌||◌, false, IsTrue, IfSome, IfNone, All, length, drop, count_by, slice_index};
ghost use Rattle.std.specs.List.Sorted.{IsNonDecreasing};
ghost use Rattle.std.specs.Ordering.{int_eq};
ghost use Rattle.clip_regions.specs.Regions.{contains};
ghost use Rattle.mesh_model.specs.Watertight.{is_closed_by, is_on_side};
ghost use Rattle.mesh_check.specs.Keys.{IsEdgeOf, IsPairOf, is_closed_pair, on_side};

use crate::edges::PLACES;
use clip_regions::Region;
use mesh_model::Vertex;

// How often an edge stands at the front of sorted edges.
#[derive(Clone, Copy)]
pub(crate) struct Run {
    // Its lesser place times 2^32, and its greater place.
    pub(crate) pair: u64,
    // How often it goes to the greater place.
    pub(crate) there: u32,
    // How often it goes back.
    pub(crate) back: u32,
}

// The edge that stands first among sorted ones.
pub(crate) fn first_run(keys: &[u64]) -> Run
    requires some { 0 < length keys.now }
    requires few { length keys.now < 2 ^ 32 }
    requires sorted { IsNonDecreasing keys.now }

    // It is the first edge, with how often it goes each way.
    ensures pair { result.pair ≡ slice_index keys.now 0 / 2 }
    ensures there { result.there ≡ count_by (λ key. key == 2 * result.pair) keys.now }
    ensures back { result.back ≡ count_by (λ key. key == 2 * result.pair + 1) keys.now }
    ensures some { 0 < result.there + result.back }
    ensures few { result.there + result.back ≤ length keys.now }

    // What stands behind it is of greater edges, as often as before.
    ensures others { (k : ℕ) → 2 * result.pair + 1 < k →
        count_by (λ key. key == k) (drop (result.there + result.back) keys.now) ≡ count_by (λ key. key == k) keys.now }
    ensures above { (k : ℕ) → result.there + result.back ≤ k → k < length keys.now
        → 2 * result.pair + 1 < slice_index keys.now k }
{
    let pair = keys[0] / 2;
    let mut there = 0;
    let mut back = 0;
    for key in keys {
        if *key == 2 * pair {
            there += 1;
        } else if *key == 2 * pair + 1 {
            back += 1;
        } else {
            return Run { pair, there, back };
        }
    }
    Run { pair, there, back }
}

// Whether two coordinates are both that of a side.
fn are_both(a: i32, b: i32, side: i32) -> bool
    ensures value { result ≡ (int_eq a side && int_eq b side) }
{
    a == side && b == side
}

// Whether two coordinates are both that of one of two sides.
fn are_on_one(a: i32, b: i32, low: i32, high: i32) -> bool
    ensures value { result ≡ ((int_eq a low && int_eq b low) || (int_eq a high && int_eq b high)) }
{
    are_both(a, b, low) || are_both(a, b, high)
}

// Whether both vertices stand within the region.
fn are_within(r: &Region, p: &Vertex, q: &Vertex) -> bool
    ensures value { result ≡ (contains r.now p.now.x p.now.z && contains r.now q.now.x q.now.z) }
{
    r.contains(p.x, p.z) && r.contains(q.x, q.z)
}

// Whether both vertices have the column of the west side or of the east side.
fn are_in_column(r: &Region, p: &Vertex, q: &Vertex) -> bool
    ensures value { result ≡ ((int_eq p.now.x r.now.x0 && int_eq q.now.x r.now.x0)
        || (int_eq p.now.x r.now.x1 && int_eq q.now.x r.now.x1)) }
{
    are_on_one(p.x, q.x, r.x0, r.x1)
}

// Whether both vertices have the row of the north side or of the south side.
fn are_in_row(r: &Region, p: &Vertex, q: &Vertex) -> bool
    ensures value { result ≡ ((int_eq p.now.z r.now.y0 && int_eq q.now.z r.now.y0)
        || (int_eq p.now.z r.now.y1 && int_eq q.now.z r.now.y1)) }
{
    are_on_one(p.z, q.z, r.y0, r.y1)
}

// Whether both vertices have the column or the row of one side.
fn are_on_line(r: &Region, p: &Vertex, q: &Vertex) -> bool
    ensures value { result ≡ (((int_eq p.now.x r.now.x0 && int_eq q.now.x r.now.x0)
        || (int_eq p.now.x r.now.x1 && int_eq q.now.x r.now.x1))
        || ((int_eq p.now.z r.now.y0 && int_eq q.now.z r.now.y0)
        || (int_eq p.now.z r.now.y1 && int_eq q.now.z r.now.y1))) }
{
    are_in_column(r, p, q) || are_in_row(r, p, q)
}

// Whether both vertices stand on one and the same side of the region.
#[tactic(auto, unfolding(mesh_model::specs::Watertight::is_on_side))]
fn is_on_side(r: &Region, p: &Vertex, q: &Vertex) -> bool
    ensures value { result ≡ is_on_side r.now p.now q.now }
{
    are_within(r, p, q) && are_on_line(r, p, q)
}

// Whether so many triangles there and back close an edge.
#[tactic(auto, unfolding(mesh_model::specs::Watertight::is_closed_by))]
fn is_closed_by(there: u32, back: u32, border: bool) -> bool
    requires { there + back < 2 ^ 32 }
    ensures value { result ≡ is_closed_by there back border }
{
    if there + back == 0 {
        return true;
    }
    if border {
        there + back == 1
    } else {
        there == 1 && back == 1
    }
}

// What edges are judged by: the vertices between which they run, and the region whose sides are the border.
#[derive(Clone, Copy)]
pub(crate) struct Places<'a> {
    pub(crate) border: Region,
    pub(crate) vertices: &'a [Vertex],
}

// Whether an edge is closed.
#[tactic(auto, unfolding(crate::specs::Keys::on_side))]
fn is_closed(places: Places<'_>, run: Run) -> bool
    requires first { run.pair / 2 ^ 32 < length places.vertices.now }
    requires second { run.pair % 2 ^ 32 < length places.vertices.now }
    requires few { run.there + run.back < 2 ^ 32 }
    ensures value { result
        ≡ is_closed_by run.there run.back (on_side places.entry.border places.entry.vertices.now run.pair) }
{
    let p = &places.vertices[(run.pair / PLACES) as usize];
    let q = &places.vertices[(run.pair % PLACES) as usize];
    is_closed_by(run.there, run.back, is_on_side(&places.border, p, q))
}

// The first edge among sorted ones that isn't closed.
pub(crate) fn first_open(places: Places<'_>, keys: &[u64]) -> Option<Run>
    requires few { length keys.now < 2 ^ 32 }
    requires sorted { IsNonDecreasing keys.now }
    requires ends { All (IsEdgeOf (length places.vertices.now)) keys.now }

    // Every edge before it is closed, and it isn't; where there is none, all are.
    ensures none { IfNone result ((pair : ℕ)
        → IsTrue (is_closed_pair places.entry.border places.entry.vertices.now keys.now pair)) }
    ensures before { IfSome result (λ run. (pair : ℕ) → pair < run.pair
        → IsTrue (is_closed_pair places.entry.border places.entry.vertices.now keys.now pair)) }
    ensures open { IfSome result
        (λ run. is_closed_pair places.entry.border places.entry.vertices.now keys.now run.pair ≡ false) }

    // It is told with how often it goes each way, and is an edge of the vertices.
    ensures there { IfSome result (λ run. run.there ≡ count_by (λ key. key == 2 * run.pair) keys.now) }
    ensures back { IfSome result (λ run. run.back ≡ count_by (λ key. key == 2 * run.pair + 1) keys.now) }
    ensures few { IfSome result (λ run. run.there + run.back ≤ length keys.now) }
    ensures ends { IfSome result (λ run. IsPairOf (length places.entry.vertices.now) run.pair) }
{
    let mut rest = keys;
    while !rest.is_empty() {
        let run = first_run(rest);
        if !is_closed(places, run) {
            return Some(run);
        }
        rest = &rest[(run.there + run.back) as usize..];
    }
    None
}
