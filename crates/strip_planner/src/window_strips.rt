//! The strips of a window round its filled region, in the order in which they are filled.

ghost use Rattle.std.specs.Prelude.{◌≡◌, ◌<◌, ◌≤◌, ◌+◌, ◌++◌, ◌∷◌, [], false, ℤ, pos, ◌-ℤ◌, ◌<ℤ◌, ◌≤ℤ◌, length, filter};
ghost use Rattle.clip_regions.specs.Regions.{is_empty};
ghost use Rattle.plan_model.specs.Laws.{IsFilledIn};
ghost use Rattle.plan_model.specs.Strips.{left_of, right_of, above, below, has_cell, strips, current_strip, hull};
ghost use Rattle.plan_model.specs.Sound.{IsInside};
ghost use Rattle.strip_planner.specs.Spans.{span};

use crate::strip_list::Strips;
use clip_regions::Region;
use plan_laws::inside_is_held;

// Adds what lies left of the filled region, over its rows, if that has a cell.
fn push_left(out: &mut Strips, filled: Region, window: Region)
    requires inside { IsInside window filled }
    requires room { length out.old < 4 }
    ensures value { out.new ≡ out.old ++ filter has_cell (left_of filled window ∷ []) }
    ensures longer { length out.new ≤ length out.old + 1 }
{
    if window.x0 < filled.x0 {
        out.push(Region {
            x0: window.x0,
            y0: filled.y0,
            x1: filled.x0 - 1,
            y1: filled.y1,
        });
    }
}

// Adds what lies right of it, over its rows, if that has a cell.
fn push_right(out: &mut Strips, filled: Region, window: Region)
    requires inside { IsInside window filled }
    requires room { length out.old < 4 }
    ensures value { out.new ≡ out.old ++ filter has_cell (right_of filled window ∷ []) }
    ensures longer { length out.new ≤ length out.old + 1 }
{
    if filled.x1 < window.x1 {
        out.push(Region {
            x0: filled.x1 + 1,
            y0: filled.y0,
            x1: window.x1,
            y1: filled.y1,
        });
    }
}

// Adds what lies above it, over the window's whole width, if that has a cell.
fn push_above(out: &mut Strips, filled: Region, window: Region)
    requires inside { IsInside window filled }
    requires room { length out.old < 4 }
    ensures value { out.new ≡ out.old ++ filter has_cell (above filled window ∷ []) }
    ensures longer { length out.new ≤ length out.old + 1 }
{
    if window.y0 < filled.y0 {
        out.push(Region {
            x0: window.x0,
            y0: window.y0,
            x1: window.x1,
            y1: filled.y0 - 1,
        });
    }
}

// Adds what lies below it, over the window's whole width, if that has a cell.
fn push_below(out: &mut Strips, filled: Region, window: Region)
    requires inside { IsInside window filled }
    requires room { length out.old < 4 }
    ensures value { out.new ≡ out.old ++ filter has_cell (below filled window ∷ []) }
    ensures longer { length out.new ≤ length out.old + 1 }
{
    if filled.y1 < window.y1 {
        out.push(Region {
            x0: window.x0,
            y0: filled.y1 + 1,
            x1: window.x1,
            y1: window.y1,
        });
    }
}

/// The strips of a filled region that is empty or lies in its window: the window where nothing is
/// filled, else what lies left and right of it over its rows, and then above and below it over the
/// window's whole width, without the empty ones.
pub fn strips(filled: Region, window: Region) -> Strips
    requires { IsFilledIn filled window }
    ensures { result ≡ strips filled window }
{
    inside_is_held();
    let mut out = Strips::none();
    if filled.is_empty() {
        out.push(window);
        return out;
    }
    push_left(&mut out, filled, window);
    push_right(&mut out, filled, window);
    push_above(&mut out, filled, window);
    push_below(&mut out, filled, window);
    out
}

/// The strip that is filled first, under the condition of `strips`: none where the filled region is the
/// window.
pub fn current_strip(filled: Region, window: Region) -> Option<Region>
    requires { IsFilledIn filled window }
    ensures { result ≡ current_strip filled window }
{
    let all = strips(filled, window);
    if all.count() == 0 {
        return None;
    }
    Some(all.at(0))
}

// The region from the lesser to the greater corners of two regions.
fn span(a: Region, b: Region) -> Region
    ensures { result ≡ span a b }
{
    Region {
        x0: a.x0.min(b.x0),
        y0: a.y0.min(b.y0),
        x1: a.x1.max(b.x1),
        y1: a.y1.max(b.y1),
    }
}

/// The least region that holds both: what a filled region grows to by a strip.
pub fn hull(a: Region, b: Region) -> Region
    ensures value { result ≡ hull a b }
{
    if a.is_empty() {
        return b;
    }
    if b.is_empty() {
        return a;
    }
    span(a, b)
}
