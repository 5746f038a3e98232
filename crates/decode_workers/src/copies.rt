//! Copies of the heights of a frame.

ghost use Rattle.std.specs.Prelude.{◌≡◌, ◌^◌, ◌<◌, ◌≤◌, pos, neg_ℤ, ◌+ℤ◌, ◌≤ℤ◌, length, map, slice_index_or, IfOk};
ghost use Rattle.std.specs.Int.{int_gap};
ghost use Rattle.clip_regions.specs.Regions.{area, IsWithin};
ghost use Rattle.plan_model.specs.Limits.{IsSize};
ghost use Rattle.mesh_model.specs.Height.{active_at};
ghost use Rattle.mesh_laws.specs.Conditions.{IsCell, IsSmall};
ghost use Rattle.torus_grid.specs.Places.{place_among};
ghost use Rattle.decode_workers.specs.Copies.{no_copy, copy_in, HaveRoom};

use active_region::Actives;
use clip_regions::Region;
use obj_frames::NoMemory;
use std::alloc::{AllocError, Global};
use std::marker::Model;

/// The heights of each level of a frame, in metres and row by row, copied from a book.
///
/// A contract sees K, the active regions, and for each level the heights that were copied and how many of them there
/// is room for.
#[derive(Drop)]
pub struct LevelCopies {
    pub(crate) k: u8,
    pub(crate) actives: Actives,
    // The finest level first.
    pub(crate) levels: Vec<Vec<i16>>,
}

impl Model for LevelCopies {
    ghost use Rattle.std.specs.Prelude.{◌≡◌, map, length};
    ghost use Rattle.plan_model.specs.Limits.{IsSize};
    ghost use Rattle.decode_workers.specs.Copies.{CopiesView, copy_in};

    ghost Value = { CopiesView };

    ghost view = { λ s. record { k = s.k; actives = s.actives; levels = map copy_in s.levels.items } };

    ghost invariant = { λ s. IsSize s.k × (length s.levels.items ≡ length s.actives) };
}

// How many columns or rows lie from the first to the last of at most 255, or none.
fn span(first: i32, last: i32) -> usize
    requires near { IsWithin (2 ^ 24) (record { x0 = first; y0 = first; x1 = last; y1 = last }) }
    ensures value { result ≡ int_gap first (last +ℤ pos 1) }
{
    if last < first {
        return 0;
    }
    (last - first + 1) as usize
}

// How many cells an active region has.
#[tactic(auto, unfolding(clip_regions::specs::Regions::area, clip_regions::specs::Regions::columns, clip_regions::specs::Regions::rows))]
fn cell_count(region: Region) -> usize
    requires { IsSmall region }
    ensures { result ≡ area region }
{
    span(region.x0, region.x1) * span(region.y0, region.y1)
}

// How many lie from the first on before the other.
fn before(first: i32, other: i32) -> usize
    requires order { first ≤ℤ other }
    requires low { neg_ℤ (pos (2 ^ 24)) ≤ℤ first }
    requires high { other ≤ℤ pos (2 ^ 24) }
    ensures value { result ≡ int_gap first other }
    ensures few { result ≤ 2 ^ 25 }
{
    (other - first) as usize
}

// The place of a cell among those of an active region, row by row.
#[tactic(auto, unfolding(torus_grid::specs::Places::place_among, clip_regions::specs::Regions::columns))]
fn place_of(region: Region, i: i32, j: i32) -> usize
    requires region { IsSmall region }
    requires cell { IsCell region i j }
    ensures { result ≡ place_among region i j }
{
    span(region.x0, region.x1) * before(region.y0, j) + before(region.x0, i)
}

// Room for the heights of each active region.
fn room_of(alloc: Global, actives: &Actives) -> Result<Vec<Vec<i16>>, AllocError>
    ensures { IfOk result (λ levels. HaveRoom actives.now (length actives.now) (map copy_in levels.items)) }
{
    let mut levels = Vec::with_capacity(alloc, usize::from(actives.levels()))?;
    for level in 0..actives.levels() {
        let heights = Vec::with_capacity(alloc, cell_count(actives.at(level)))?;
        levels.push(heights)?;
    }
    Ok(levels)
}

// The height at a place among those of a level.
fn height_at(levels: &[Vec<i16>], level: usize, place: usize) -> i16
    requires level { level < length levels.now }
    requires place { place < length (slice_index_or (map copy_in levels.now) level no_copy).heights }
    ensures { result ≡ slice_index_or (slice_index_or (map copy_in levels.now) level no_copy).heights place (pos 0) }
{
    levels[level][place]
}

impl LevelCopies {
    ghost use Rattle.std.specs.Borrow.{sem};
    ghost use Rattle.decode_workers.specs.Copies.{IsRoom, copy_of};
    ghost use Rattle.decode_workers.specs.Lent.{LendsLevel};

    /// Room for the heights of a frame's active regions, for K from 4 to 8. It fails where memory runs out.
    pub fn room(alloc: Global, k: u8, actives: &Actives) -> Result<LevelCopies, NoMemory>
        requires size { IsSize k }
        ensures room { IfOk result (IsRoom k actives.now) }
    {
        let levels = room_of(alloc, actives)?;
        Ok(LevelCopies {
            k,
            actives: *actives,
            levels,
        })
    }

    // K.
    pub(crate) fn k(&self) -> u8
        ensures value { result ≡ self.now.k }
        ensures size { IsSize result }
    {
        self.k
    }

    // The active regions, the finest level first.
    pub(crate) fn actives(&self) -> Actives
        ensures { result ≡ self.now.actives }
    {
        self.actives
    }

    // The height at a cell of a level's active region, as it was copied.
    pub(crate) fn copied(&self, level: u8, i: i32, j: i32) -> i16
        requires level { level < length self.now.actives }
        requires small { IsSmall (active_at self.now.actives level) }
        requires cell { IsCell (active_at self.now.actives level) i j }
        requires there { place_among (active_at self.now.actives level) i j < length (copy_of self.now level).heights }
        ensures { result ≡ slice_index_or (copy_of self.now level).heights
            (place_among (active_at self.now.actives level) i j) (pos 0) }
    {
        let place = place_of(self.actives.at(level), i, j);
        height_at(&self.levels, usize::from(level), place)
    }

    /// The heights of a level, to be replaced by those of its active region.
    pub fn level_mut(&mut self, level: u8) -> &mut Vec<i16>
        requires level { level < length self.old.actives }
        ensures* writes { sem 𝓛 (LendsLevel self.entry level result) }
        ensures value { copy_in result.now ≡ copy_of self.old level }
    {
        &mut self.levels[usize::from(level)]
    }
}
