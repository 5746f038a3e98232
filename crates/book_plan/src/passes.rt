//! What the passes of a book have: which torus tiles they hold and pin.

ghost use Rattle.std.specs.Prelude.{◌≡◌, ◌<◌, ◌≤◌, ◌&&◌, ◌==◌, None, filter, fold, flat_map, length, replicate};
ghost use Rattle.std.specs.Prelude.{slice_index_or, slice_set, if◌then◌else◌, IfOk};
ghost use Rattle.std.specs.List.{range_with_len};
ghost use Rattle.clip_regions.specs.Regions.{empty_region};
ghost use Rattle.plan_model.specs.Limits.{IsSize};
ghost use Rattle.plan_model.specs.Blocks.{tile_of, same_tile};
ghost use Rattle.plan_model.specs.Strips.{first_of};
ghost use Rattle.plan_model.specs.States.{job_of, frame_of, has_work};
ghost use Rattle.plan_model.specs.Tiles.{job_holds, pins_of, lesser, meets_tile};
ghost use Rattle.plan_model.specs.declared.events.Work.TheVariants.{Free};
ghost use Rattle.book_plan.specs.Found.{or_found, listed, lesser_of, number_of, comes_before, earlier, job_under};
ghost use Rattle.book_plan.specs.Found.{first_under, AreFreeFrom};

use crate::desk::{PlanFrame, has_work, job_of};
use clip_regions::Region;
use plan_model::{JobNote, TileId, Work};
use std::alloc::{AllocError, Global};
use std::marker::Model;
use strip_planner::{meets_tile, tile_of};

// What each pass of a book has.
#[derive(Drop)]
pub(crate) struct Passes {
    all: Vec<Work<PlanFrame>>,
    // All passes from this one on are free.
    used: usize,
}

impl Model for Passes {
    ghost use Rattle.std.specs.Prelude.{◌≤◌, List, length};
    ghost use Rattle.plan_model.specs.States.{Pass};
    ghost use Rattle.book_plan.specs.Found.{AreFreeFrom};

    ghost Value = { List Pass };

    ghost view = { λ s. s.all.items };

    ghost invariant = { λ s. (s.used ≤ length s.all.items) × AreFreeFrom s.all.items s.used };
}

// Free passes.
#[tactic(auto, using(std::proofs::lemmas::List::replicate_more))]
fn free_passes(alloc: Global, count: u8) -> Result<Vec<Work<PlanFrame>>, AllocError>
    ensures value { IfOk result (λ v. v.items ≡ replicate count Free) }
{
    let mut out = Vec::with_capacity(alloc, count as usize)?;
    'made: for _ in 0..count {
        out.push(Work::Free)?;
    }
    Ok(out)
}

// The job of one of some passes.
pub(crate) fn job_in(passes: &[Work<PlanFrame>], p: u8) -> Option<JobNote>
    requires { p < length passes.now }
    ensures value { result ≡ job_of (slice_index_or passes.now p Free) }
{
    job_of(&passes[p as usize])
}

// The number of the frame that a pass has.
fn frame_number(pass: &Work<PlanFrame>) -> Option<u64>
    ensures value { result ≡ number_of (frame_of pass.now) }
{
    match pass {
        Work::Draws(frame) => Some(frame.number),
        Work::Free | Work::Fills(_) => None,
    }
}

// The number of the frame of one of some passes.
pub(crate) fn frame_in(passes: &[Work<PlanFrame>], p: u8) -> Option<u64>
    requires { p < length passes.now }
    ensures value { result ≡ number_of (frame_of (slice_index_or passes.now p Free)) }
{
    frame_number(&passes[p as usize])
}

// Whether one of some passes has a job or a frame.
pub(crate) fn works(passes: &[Work<PlanFrame>], p: u8) -> bool
    requires { p < length passes.now }
    ensures value { result ≡ has_work (slice_index_or passes.now p Free) }
{
    has_work(&passes[p as usize])
}

// Puts another pass in the place of one.
fn put_pass(passes: &mut [Work<PlanFrame>], p: u8, new: Work<PlanFrame>)
    requires { p < length passes.old }
    ensures value { passes.new ≡ slice_set passes.old p new }
{
    passes[p as usize] = new;
}

impl Passes {
    // So many free passes.
    pub(crate) fn start(alloc: Global, count: u8) -> Result<Passes, AllocError>
        ensures value { IfOk result (λ passes. passes ≡ replicate count Free) }
    {
        let all = free_passes(alloc, count)?;
        Ok(Passes { all, used: 0 })
    }

    // What each of them has.
    pub(crate) fn as_slice(&self) -> &[Work<PlanFrame>]
        ensures value { result.now ≡ self.now }
    {
        self.all.as_slice()
    }

    // A pass from which on all are free.
    pub(crate) fn used(&self) -> usize
        ensures inside { result ≤ length self.now }
        ensures free { AreFreeFrom self.now result }
    {
        self.used
    }

    // Puts another pass in the place of one.
    pub(crate) fn set(&mut self, p: u8, new: Work<PlanFrame>)
        requires { p < length self.old }
        ensures value { self.new ≡ slice_set self.old p new }
    {
        put_pass(self.all.as_mut_slice(), p, new);
        self.used = self.used.max(p as usize + 1);
    }
}

// Whether two tiles are one.
#[tactic(auto, unfolding(plan_model::specs::Blocks::same_tile))]
fn same_tile(t: TileId, u: TileId) -> bool
    ensures value { result ≡ same_tile t u }
{
    t.tx == u.tx && t.ty == u.ty
}

// Whether a pass's job holds the tile of a level.
fn job_holds(k: u8, level: u8, t: TileId, job: Option<JobNote>) -> bool
    requires { IsSize k }
    ensures value { result ≡ job_holds k level t job }
{
    match job {
        None => false,
        Some(job) => job.level == level && same_tile(tile_of(k, job.piece.bx, job.piece.by), t),
    }
}

// The first of some passes whose job holds the tile of a level, where all from `used` on are free.
pub(crate) fn holder_of(
    k: u8,
    passes: &[Work<PlanFrame>],
    used: usize,
    level: u8,
    t: TileId,
) -> Option<u8>
    requires k { IsSize k }
    requires few { length passes.now ≤ 256 }
    requires used { used ≤ length passes.now }
    requires free { AreFreeFrom passes.now used }
    ensures value { result ≡ first_of (filter
        (λ p. job_holds k level t (job_of (slice_index_or passes.now p Free))) (range_with_len 0 (length passes.now))) }
{
    let mut first = None;
    for p in 0..used {
        let found = job_holds(k, level, t, job_of(&passes[p]));
        first = or_found(first, found, p as u8);
    }
    first
}

// The first number that was found, where one was or `p` is.
pub(crate) fn or_found(first: Option<u8>, found: bool, p: u8) -> Option<u8>
    ensures value { result ≡ or_found first found p }
{
    match first {
        Some(q) => Some(q),
        None => { if found { Some(p) } else { None } }
    }
}

impl PlanFrame {
    // The frame's active region of a level.
    fn active_at(&self, level: u8) -> Region
        ensures value { result ≡ slice_index_or self.now.actives level empty_region }
    {
        if level < self.actives.levels() {
            self.actives.at(level)
        } else {
            Region::empty()
        }
    }

    // The frame's number, where it pins the tile of a level.
    fn pinning(&self, k: u8, level: u8, t: TileId) -> Option<u64>
        requires k { IsSize k }
        ensures value { listed result ≡ pins_of k level t (Some self.now) }
    {
        if meets_tile(k, self.active_at(level), t) {
            Some(self.number)
        } else {
            None
        }
    }
}

// The number of a pass's frame, where it pins the tile of a level.
fn pinning(k: u8, pass: &Work<PlanFrame>, level: u8, t: TileId) -> Option<u64>
    requires k { IsSize k }
    ensures value { listed result ≡ pins_of k level t (frame_of pass.now) }
{
    match pass {
        Work::Draws(frame) => frame.pinning(k, level, t),
        Work::Free | Work::Fills(_) => None,
    }
}

// The lesser of two numbers that may be there.
fn lesser_of(least: Option<u64>, other: Option<u64>) -> Option<u64>
    ensures value { result ≡ lesser_of least other }
{
    match (least, other) {
        (Some(m), Some(n)) => Some(m.min(n)),
        (None, other) => other,
        (least, None) => least,
    }
}

// The least number of a frame, of some passes, that pins the tile of a level, where all from `used` on are free.
pub(crate) fn pinner_of(
    k: u8,
    passes: &[Work<PlanFrame>],
    used: usize,
    level: u8,
    t: TileId,
) -> Option<u64>
    requires k { IsSize k }
    requires used { used ≤ length passes.now }
    requires free { AreFreeFrom passes.now used }
    ensures value { result ≡ fold lesser None (flat_map (λ pass. pins_of k level t (frame_of pass)) passes.now) }
{
    let mut least = None;
    for p in 0..used {
        let number = pinning(k, &passes[p], level, t);
        least = lesser_of(least, number);
    }
    least
}

// Whether tile t comes before tile u: by row, then by column.
#[tactic(auto, unfolding(crate::specs::Found::comes_before))]
fn comes_before(t: TileId, u: TileId) -> bool
    ensures { result ≡ comes_before t u }
{
    t.ty < u.ty || (t.ty == u.ty && t.tx < u.tx)
}

// The earlier of two tiles that may be there.
fn earlier(first: Option<TileId>, other: Option<TileId>) -> Option<TileId>
    ensures { result ≡ earlier first other }
{
    match (first, other) {
        (Some(u), Some(t)) => { if comes_before(t, u) { Some(t) } else { Some(u) } }
        (None, other) => other,
        (first, None) => first,
    }
}

// The tile of a job on a level, where a region meets it.
fn job_under(k: u8, level: u8, region: Region, job: Option<JobNote>) -> Option<TileId>
    requires { IsSize k }
    ensures { result ≡ job_under k level region job }
{
    match job {
        None => None,
        Some(job) => {
            let tile = tile_of(k, job.piece.bx, job.piece.by);
            if job.level == level && meets_tile(k, region, tile) {
                Some(tile)
            } else {
                None
            }
        }
    }
}

// The earliest tile of a level that a region meets and that a job of some passes has, where all from `used` on
// are free.
#[tactic(auto, unfolding(crate::specs::Found::first_under))]
pub(crate) fn first_under(
    k: u8,
    passes: &[Work<PlanFrame>],
    used: usize,
    level: u8,
    region: Region,
) -> Option<TileId>
    requires size { IsSize k }
    requires used { used ≤ length passes.now }
    requires free { AreFreeFrom passes.now used }
    ensures { result ≡ first_under k level region passes.now }
{
    let mut first = None;
    for p in 0..used {
        let tile = job_under(k, level, region, job_of(&passes[p]));
        first = earlier(first, tile);
    }
    first
}
