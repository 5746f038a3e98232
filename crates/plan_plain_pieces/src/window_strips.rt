//! The strips of a window round its filled region, in the order in which they are filled.

ghost use Rattle.std.specs.Prelude.{◌≡◌, ◌^◌, filter, IfOk, IfSome};
ghost use Rattle.clip_regions.specs.Regions.{IsWithin};
ghost use Rattle.plan_model.specs.Strips.{first_of, left_of, right_of, above, below, has_cell, strips, current_strip, hull};
ghost use Rattle.plan_model.specs.Sound.{IsFilledPart, IsInside};
ghost use Rattle.plan_plain_pieces.specs.Spans.{span};

use clip_regions::Region;
use std::alloc::{AllocError, Global};

// What lies left of the filled region, over its rows.
fn left_of(filled: Region, window: Region) -> Region
    requires { IsWithin (2 ^ 24) filled }
    ensures { result ≡ left_of filled window }
{
    Region {
        x0: window.x0,
        y0: filled.y0,
        x1: filled.x0 - 1,
        y1: filled.y1,
    }
}

// What lies right of it, over its rows.
fn right_of(filled: Region, window: Region) -> Region
    requires { IsWithin (2 ^ 24) filled }
    ensures { result ≡ right_of filled window }
{
    Region {
        x0: filled.x1 + 1,
        y0: filled.y0,
        x1: window.x1,
        y1: filled.y1,
    }
}

// What lies above it, over the window's whole width.
fn above(filled: Region, window: Region) -> Region
    requires { IsWithin (2 ^ 24) filled }
    ensures { result ≡ above filled window }
{
    Region {
        x0: window.x0,
        y0: window.y0,
        x1: window.x1,
        y1: filled.y0 - 1,
    }
}

// What lies below it, over the window's whole width.
fn below(filled: Region, window: Region) -> Region
    requires { IsWithin (2 ^ 24) filled }
    ensures { result ≡ below filled window }
{
    Region {
        x0: window.x0,
        y0: filled.y1 + 1,
        x1: window.x1,
        y1: window.y1,
    }
}

// Whether the region has a cell.
#[tactic(auto, unfolding(plan_model::specs::Strips::has_cell))]
fn has_cell(region: Region) -> bool
    ensures { result ≡ has_cell region }
{
    !region.is_empty()
}

// The regions that have a cell, in their order.
fn with_cells(alloc: Global, regions: &[Region]) -> Result<Vec<Region>, AllocError>
    ensures { IfOk result (λ v. v.items ≡ filter has_cell regions.now) }
{
    regions
        .iter()
        .copied()
        .filter(|region| has_cell(*region))
        .collect(alloc)
}

/// The strips of a filled region in its window: the window where nothing is filled, else what lies
/// left, right, above and below, without the empty ones. It fails where memory runs out.
pub fn strips(alloc: Global, filled: Region, window: Region) -> Result<Vec<Region>, AllocError>
    requires { IsWithin (2 ^ 24) filled }
    ensures value { IfOk result (λ v. v.items ≡ strips filled window) }
{
    if filled.is_empty() {
        return Vec::from_slice(alloc, &[window]);
    }
    let around = [
        left_of(filled, window),
        right_of(filled, window),
        above(filled, window),
        below(filled, window),
    ];
    with_cells(alloc, &around)
}

// The first of some regions, where there is one.
fn first_of(regions: &[Region]) -> Option<Region>
    ensures { result ≡ first_of regions.now }
{
    regions.first().copied()
}

/// The strip that is filled first: none where the filled region is the window. It fails where memory
/// runs out.
#[tactic(auto, unfolding(plan_model::specs::Strips::current_strip))]
pub fn current_strip(
    alloc: Global,
    filled: Region,
    window: Region,
) -> Result<Option<Region>, AllocError>
    requires { IsWithin (2 ^ 24) filled }
    ensures value { IfOk result (λ strip. strip ≡ current_strip filled window) }
    ensures inside { IsFilledPart window filled → IsInside window window →
        IfOk result (λ strip. IfSome strip (IsInside window)) }
{
    let all = strips(alloc, filled, window)?;
    Ok(first_of(all.as_slice()))
}

// The region from the lesser to the greater corners of two regions.
fn span(a: Region, b: Region) -> Region
    ensures { result ≡ span a b }
{
    Region {
        x0: a.x0.min(b.x0),
        y0: a.y0.min(b.y0),
        x1: a.x1.max(b.x1),
        y1: a.y1.max(b.y1),
    }
}

/// The least region that holds both.
pub fn hull(a: Region, b: Region) -> Region
    ensures value { result ≡ hull a b }
{
    if a.is_empty() {
        return b;
    }
    if b.is_empty() {
        return a;
    }
    span(a, b)
}
