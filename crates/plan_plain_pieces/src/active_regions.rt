//! The active regions: what is drawn of each level.

ghost use Rattle.std.specs.Prelude.{◌≡◌, ◌^◌, ◌<◌, ◌&&◌, ◌↔◌, length, replicate, IsTrue, pos, neg_ℤ, ◌-ℤ◌, int_lt, int_le, All, IfOk};
ghost use Rattle.clip_regions.specs.Regions.{empty_region, IsWithin, IsPlaced};
ghost use Rattle.plan_model.specs.Limits.{IsSize};
ghost use Rattle.plan_model.specs.Actives.{drawable, inner, active_of, actives_by, filled_from, actives};
ghost use Rattle.plan_model.specs.Window.{margin};

use clip_regions::Region;
use level_frame::margin;
use std::alloc::{AllocError, Global};

// Whether a region's columns lie too near to each other to be drawn.
fn is_narrow(region: Region) -> bool
    requires { IsPlaced region }
    ensures { result ≡ int_lt (region.x1 -ℤ region.x0) (pos 2) }
{
    region.x1 - region.x0 < 2
}

// Whether a region's rows lie too near to each other to be drawn.
fn is_low(region: Region) -> bool
    requires { IsPlaced region }
    ensures { result ≡ int_lt (region.y1 -ℤ region.y0) (pos 2) }
{
    region.y1 - region.y0 < 2
}

/// The region where both sides are 2 or more, else the empty one.
pub fn drawable(region: Region) -> Region
    requires { IsPlaced region }
    ensures value { result ≡ drawable region }
    ensures placed { IsPlaced result }
{
    if is_narrow(region) {
        return Region::empty();
    }
    if is_low(region) {
        return Region::empty();
    }
    region
}

// The cells of a finer level that lie in the coarser active region, a margin of coarser cells inside it.
fn inner(k: u8, coarser: Region) -> Region
    requires k { IsSize k }
    requires coarser { IsWithin (2 ^ 24) coarser }
    ensures value { result ≡ inner (margin k) coarser }
    ensures placed { IsPlaced result }
{
    coarser.erode(margin(k)).double()
}

// The active region of a level, of its filled region and the active regions of the coarser levels, the
// finest first.
fn active_of(k: u8, filled: Region, coarser: &[Region]) -> Region
    requires k { IsSize k }
    requires filled { IsWithin (2 ^ 24) filled }
    requires coarser { All (IsWithin (2 ^ 24)) coarser.now }
    ensures value { result ≡ active_of (margin k) filled coarser.now }
{
    match coarser.first() {
        None => drawable(filled),
        Some(next) => drawable(filled.meet(inner(k, *next))),
    }
}

// The active regions of filled regions, the finest first, where every level is in use.
fn actives_by(alloc: Global, k: u8, filled: &[Region]) -> Result<Vec<Region>, AllocError>
    requires k { IsSize k }
    requires filled { All (IsWithin (2 ^ 24)) filled.now }
    ensures value { IfOk result (λ v. v.items ≡ actives_by (margin k) filled.now) }
    ensures within { IfOk result (λ v. All (IsWithin (2 ^ 24)) v.items) }
{
    let mut out = Vec::new(alloc);
    for i in 0..filled.len() {
        let region = active_of(k, filled[filled.len() - 1 - i], out.as_slice());
        out.insert(0, region)?;
    }
    Ok(out)
}

// Empty regions.
#[tactic(auto, using(std::proofs::lemmas::List::replicate_more))]
fn empties(alloc: Global, count: u8) -> Result<Vec<Region>, AllocError>
    ensures value { IfOk result (λ v. v.items ≡ replicate count empty_region) }
{
    let mut out = Vec::new(alloc);
    'made: for _ in 0..count {
        out.push(Region::empty())?;
    }
    Ok(out)
}

// The filled regions with the empty one in the place of each below the finest level in use.
fn filled_from(alloc: Global, finest: u8, filled: &[Region]) -> Result<Vec<Region>, AllocError>
    requires finest { finest < length filled.now }
    requires filled { All (IsWithin (2 ^ 24)) filled.now }
    ensures value { IfOk result (λ v. v.items ≡ filled_from finest filled.now) }
    ensures within { IfOk result (λ v. All (IsWithin (2 ^ 24)) v.items) }
{
    let mut out = empties(alloc, finest)?;
    out.extend_from_slice(&filled[finest as usize..])?;
    Ok(out)
}

/// The active regions of filled regions, the finest first, for the finest level in use: what is drawn of
/// each level. Each lies in its filled region, each finer one a margin inside the coarser one, and a level
/// below the finest in use shows nothing. It fails where memory runs out.
#[tactic(auto, unfolding(plan_model::specs::Actives::actives))]
pub fn actives(
    alloc: Global,
    k: u8,
    finest: u8,
    filled: &[Region],
) -> Result<Vec<Region>, AllocError>
    requires k { IsSize k }
    requires finest { finest < length filled.now }
    requires filled { All (IsWithin (2 ^ 24)) filled.now }
    ensures value { IfOk result (λ v. v.items ≡ actives k finest filled.now) }
    ensures within { IfOk result (λ v. All (IsWithin (2 ^ 24)) v.items) }
{
    let used = filled_from(alloc, finest, filled)?;
    actives_by(alloc, k, used.as_slice())
}

// Whether a number is no farther from zero than 2^24.
fn is_near(corner: i32) -> bool
    ensures { result ≡ (int_le (neg_ℤ (pos (2 ^ 24))) corner && int_le corner (pos (2 ^ 24))) }
{
    -16777216 <= corner && corner <= 16777216
}

// Whether no corner of a region is farther from zero than 2^24.
fn has_near_corners(region: &Region) -> bool
    ensures value { IsTrue result ↔ IsWithin (2 ^ 24) region.now }
{
    if !is_near(region.x0) {
        return false;
    }
    if !is_near(region.y0) {
        return false;
    }
    if !is_near(region.x1) {
        return false;
    }
    is_near(region.y1)
}

/// Whether no corner of these regions is farther from zero than 2^24, as `actives` asks.
pub fn are_near(regions: &[Region]) -> bool
    ensures value { IsTrue result ↔ All (IsWithin (2 ^ 24)) regions.now }
{
    regions.iter().all(|region| has_near_corners(region))
}
