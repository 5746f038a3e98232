//! The active regions of filled regions.

ghost use Rattle.std.specs.Prelude.{◌≡◌, ◌-◌, ◌^◌, ◌<◌, ◌≤◌, ◌++◌, length, replicate, All, pos, ◌-ℤ◌, ◌≤ℤ◌, int_lt};
ghost use Rattle.clip_regions.specs.Regions.{empty_region, IsWithin, IsPlaced};
ghost use Rattle.plan_model.specs.Limits.{IsSize, IsLevelCount};
ghost use Rattle.plan_model.specs.Laws.{AllIn};
ghost use Rattle.plan_model.specs.Actives.{drawable, inner, active_of, actives};
ghost use Rattle.plan_model.specs.Window.{margin};
ghost use Rattle.active_region.specs.Active.{AreFilled, IsNearOrEmpty, AreDrawn};

use crate::list::Actives;
use clip_regions::Region;
use plan_laws::{actives_are_as_many, actives_lie_in_windows};
use plan_model::{actives_are_filled, actives_are_nested};
use plan_sound::windows_are_near;

// 2 to a power of at most 4.
fn power_of_two(power: u8) -> i32
    requires { power ≤ 4 }
    ensures value { result ≡ pos (2 ^ power) }
    ensures low { pos 1 ≤ℤ result }
    ensures high { result ≤ℤ pos 16 }
{
    1 << power
}

// How many coarser cells lie round a finer active region at least: 2^(K - 4), but not below 2.
fn margin(k: u8) -> i32
    requires { IsSize k }
    ensures value { result ≡ pos (margin k) }
    ensures low { pos 2 ≤ℤ result }
    ensures high { result ≤ℤ pos 16 }
{
    power_of_two(k - 4).max(2)
}

// Whether a region's columns lie too near to each other to be drawn.
fn is_narrow(region: Region) -> bool
    requires { IsPlaced region }
    ensures { result ≡ int_lt (region.x1 -ℤ region.x0) (pos 2) }
{
    region.x1 - region.x0 < 2
}

// Whether a region's rows lie too near to each other to be drawn.
fn is_low(region: Region) -> bool
    requires { IsPlaced region }
    ensures { result ≡ int_lt (region.y1 -ℤ region.y0) (pos 2) }
{
    region.y1 - region.y0 < 2
}

// The region where both sides are 2 or more, else the empty one.
fn drawable(region: Region) -> Region
    requires { IsPlaced region }
    ensures { result ≡ drawable region }
{
    if is_narrow(region) {
        return Region::empty();
    }
    if is_low(region) {
        return Region::empty();
    }
    region
}

// The cells of a finer level that lie in the coarser active region, a margin of coarser cells inside it.
fn inner(k: u8, coarser: Region) -> Region
    requires k { IsSize k }
    requires coarser { IsWithin (2 ^ 24) coarser }
    ensures value { result ≡ inner (margin k) coarser }
    ensures placed { IsPlaced result }
{
    coarser.erode(margin(k)).double()
}

// The active region of a level, of its filled region and the active regions of the coarser levels, the
// finest first.
fn active_of(k: u8, filled: Region, coarser: &[Region]) -> Region
    requires k { IsSize k }
    requires filled { IsNearOrEmpty filled }
    requires coarser { All (IsWithin (2 ^ 24)) coarser.now }
    ensures value { result ≡ active_of (margin k) filled coarser.now }
{
    if filled.is_empty() {
        return Region::empty();
    }
    match coarser.first() {
        None => drawable(filled),
        Some(next) => drawable(filled.meet(inner(k, *next))),
    }
}

// The active regions of filled regions, and behind them empty ones, twelve together.
fn twelve(filled: &[Region], k: u8, finest: u8) -> [Region; 12]
    requires k { IsSize k }
    requires many { length filled.now ≤ 12 }
    requires finest { finest < length filled.now }
    requires filled { All IsNearOrEmpty filled.now }
    ensures value { result ≡ actives k finest filled.now ++ replicate (12 - length filled.now) empty_region }
{
    let mut regions = [Region::empty(); 12];
    let count = filled.len();
    for level in (usize::from(finest)..count).rev() {
        let active = active_of(k, filled[level], &regions[level + 1..count]);
        regions[level] = active;
    }
    regions
}

/// The active regions of 1 to 12 filled regions, the finest level first, for the finest level in use.
///
/// Each filled region is empty, or lies with even corners in a window of its own level for this `k` and
/// some viewer within the limits. Each active region lies in its filled region, with even corners and
/// sides of 2 or more where it isn't empty, and half of a finer one lies at least a margin of
/// max(2, 2^(K − 4)) cells inside the coarser one.
pub fn actives(filled: &[Region], k: u8, finest: u8) -> Actives
    requires k { IsSize k }
    requires many { IsLevelCount (length filled.now) }
    requires finest { finest < length filled.now }
    requires filled { AreFilled k filled.now }

    // They are those of the definition, can be drawn, and each lies in its filled region.
    ensures value { result ≡ actives k finest filled.now }
    ensures drawn { AreDrawn k result }
    ensures filled { AllIn filled.now result }
{
    actives_are_nested();
    actives_are_filled();
    actives_are_as_many();
    actives_lie_in_windows();
    windows_are_near();
    Actives::new(twelve(filled, k, finest), filled.len() as u8)
}
