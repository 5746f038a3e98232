//! The height of a vertex.

ghost use Rattle.std.specs.Prelude.{◌≡◌, ℕ, ◌+◌, ◌/◌, ◌^◌, ◌≤◌, ◌<◌, ◌&&◌, IsTrue, true, false, ℤ, pos, neg_ℤ, ◌+ℤ◌, ◌-ℤ◌, ◌*ℤ◌, ◌≤ℤ◌, length};
ghost use Rattle.clip_regions.specs.Regions.{IsWithin, contains};
ghost use Rattle.plan_model.specs.Limits.{IsSize};
ghost use Rattle.plan_model.specs.Window.{blend_width};
ghost use Rattle.terrain_model.specs.Terrain.{level_height};
ghost use Rattle.mesh_model.specs.Height.{active_at, blended_height, blend_share, border_distance, lower_end, upper_end, vertex_height};
ghost use Rattle.mesh_plain_heights.specs.Placed.{IsNearCell, IsPlacedAt};
ghost use Rattle.mesh_plain_heights.specs.Drawn.{IsDrawnCell, blended_by, coarser_weight, own_weight};

use crate::places::Cell;
use clip_regions::{Region, floor_div};
use height_pyramid::Grid;
use level_frame::blend_width;

/// How far a cell lies inside the region's border.
pub fn border_distance(region: &Region, cell: &Cell) -> i32
    requires region { IsWithin (2 ^ 24) region.now }
    requires cell { IsNearCell cell.now }

    // It is the distance of the definition, and small.
    ensures value { result ≡ border_distance region.now cell.now.i cell.now.j }
    ensures low { neg_ℤ (pos (2 ^ 25)) ≤ℤ result }
    ensures high { result ≤ℤ pos (2 ^ 25) }
{
    let across = (cell.i - region.x0).min(region.x1 - cell.i);
    let down = (cell.j - region.y0).min(region.y1 - cell.j);
    across.min(down)
}

/// How much of the blend width goes to the coarser level: all at the border, and nothing from the blend
/// width on or at the coarsest level.
pub fn blend_share(k: u8, coarsest: bool, region: &Region, cell: &Cell) -> i32
    requires size { IsSize k }
    requires region { IsWithin (2 ^ 24) region.now }
    requires cell { IsNearCell cell.now }

    // It is the share of the definition.
    ensures value { result ≡ blend_share k coarsest region.now cell.now.i cell.now.j }
{
    if coarsest {
        0
    } else {
        0i32.max(blend_width(k) - border_distance(region, cell))
    }
}

/// The coarser coordinate of the end before or at a coordinate.
pub fn lower_end(i: i32) -> i32
    ensures value { result ≡ lower_end i }
{
    floor_div(i, 2)
}

/// The coarser coordinate of the end at or after a coordinate.
pub fn upper_end(i: i32) -> i32
    requires { i ≤ℤ pos (2 ^ 24) }
    ensures value { result ≡ upper_end i }
{
    floor_div(i + 1, 2)
}

// How many thirty-seconds of a metre one cell of the blend width gives of a height: 32 over that width.
fn own_scale(k: u8) -> i32
    requires { IsSize k }
    ensures value { result ≡ pos (32 / blend_width k) }
    ensures few { result ≤ℤ pos 32 }
{
    match k {
        4 => 32,
        5 => 16,
        6 => 8,
        7 => 4,
        _ => 2,
    }
}

// The same for each of two coarser heights: 16 over the blend width.
fn coarser_scale(k: u8) -> i32
    requires { IsSize k }
    ensures value { result ≡ pos (16 / blend_width k) }
    ensures few { result ≤ℤ pos 32 }
{
    match k {
        4 => 16,
        5 => 8,
        6 => 4,
        7 => 2,
        _ => 1,
    }
}

// The weight of a cell's own height, where the coarser heights have this share of the blend width.
fn own_weight(k: u8, share: i32) -> i32
    requires size { IsSize k }
    requires some { pos 0 ≤ℤ share }
    requires within { share ≤ℤ pos (blend_width k) }
    ensures value { result ≡ own_weight k share }
    ensures positive { pos 0 ≤ℤ result }
    ensures few { result ≤ℤ pos 32 }
{
    (blend_width(k) - share) * own_scale(k)
}

// The weight of each of the two coarser heights, where they have this share of the blend width.
fn coarser_weight(k: u8, share: i32) -> i32
    requires size { IsSize k }
    requires some { pos 0 ≤ℤ share }
    requires within { share ≤ℤ pos (blend_width k) }
    ensures value { result ≡ coarser_weight k share }
    ensures positive { pos 0 ≤ℤ result }
    ensures few { result ≤ℤ pos 32 }
{
    share * coarser_scale(k)
}

// A height, or the sum of two, times a weight.
fn weighted(weight: i32, height: i32) -> i32
    requires positive { pos 0 ≤ℤ weight }
    requires few { weight ≤ℤ pos 32 }
    requires low { neg_ℤ (pos (2 ^ 16)) ≤ℤ height }
    requires high { height ≤ℤ pos (2 ^ 16) }

    // It is the product, and small.
    ensures value { result ≡ weight *ℤ height }
    ensures low { neg_ℤ (pos (2 ^ 21)) ≤ℤ result }
    ensures high { result ≤ℤ pos (2 ^ 21) }
{
    weight * height
}

// The mean of a cell's own height and of two coarser heights that have this share of the blend width:
// heights in metres give thirty-seconds.
fn blended(k: u8, share: i32, own: i16, a: i16, b: i16) -> i32
    requires size { IsSize k }
    requires some { pos 0 ≤ℤ share }
    requires within { share ≤ℤ pos (blend_width k) }
    ensures { result ≡ blended_by k share own a b }
{
    let coarser = i32::from(a) + i32::from(b);
    weighted(own_weight(k, share), i32::from(own)) + weighted(coarser_weight(k, share), coarser)
}

// The height of the coarser cell before or at a cell, on both axes.
fn lower_height(terrain: &Grid, cell: &Cell) -> i16
    requires level { cell.now.level < 11 }
    requires column { IsPlacedAt cell.now.level cell.now.i }
    requires row { IsPlacedAt cell.now.level cell.now.j }
    ensures { result ≡ level_height terrain.now (cell.now.level + 1) (lower_end cell.now.i) (lower_end cell.now.j) }
{
    terrain.level_height(cell.level + 1, lower_end(cell.i), lower_end(cell.j))
}

// The height of the coarser cell at or after a cell, on both axes.
fn upper_height(terrain: &Grid, cell: &Cell) -> i16
    requires level { cell.now.level < 11 }
    requires column { IsPlacedAt cell.now.level cell.now.i }
    requires row { IsPlacedAt cell.now.level cell.now.j }
    ensures { result ≡ level_height terrain.now (cell.now.level + 1) (upper_end cell.now.i) (upper_end cell.now.j) }
{
    terrain.level_height(cell.level + 1, upper_end(cell.i), upper_end(cell.j))
}

// The height of a vertex of the coarsest level.
fn coarsest_height(terrain: &Grid, cell: &Cell) -> i32
    requires level { cell.now.level < 12 }
    requires column { IsPlacedAt cell.now.level cell.now.i }
    requires row { IsPlacedAt cell.now.level cell.now.j }
    ensures { result ≡ pos 32 *ℤ level_height terrain.now cell.now.level cell.now.i cell.now.j }
{
    32 * i32::from(terrain.level_height(cell.level, cell.i, cell.j))
}

// The height of a vertex of a level that has a coarser one.
fn finer_height(terrain: &Grid, k: u8, active: &Region, cell: &Cell) -> i32
    requires size { IsSize k }
    requires level { cell.now.level < 11 }
    requires near { IsWithin (2 ^ 24) active.now }
    requires inside { contains active.now cell.now.i cell.now.j ≡ true }
    requires column { IsPlacedAt cell.now.level cell.now.i }
    requires row { IsPlacedAt cell.now.level cell.now.j }

    // It is the blend of the cell's height and those of both ends.
    ensures { result ≡ blended_height k false active.now cell.now.i cell.now.j
        (level_height terrain.now cell.now.level cell.now.i cell.now.j)
        (level_height terrain.now (cell.now.level + 1) (lower_end cell.now.i) (lower_end cell.now.j))
        (level_height terrain.now (cell.now.level + 1) (upper_end cell.now.i)
        (upper_end cell.now.j)) }
{
    let share = blend_share(k, false, active, cell);
    let own = terrain.level_height(cell.level, cell.i, cell.j);
    blended(
        k,
        share,
        own,
        lower_height(terrain, cell),
        upper_height(terrain, cell),
    )
}

// The active region of a level.
fn active_at(actives: &[Region], level: u8) -> Region
    requires { level < length actives.now }
    ensures { result ≡ active_at actives.now level }
{
    actives[usize::from(level)]
}

/// The height of the vertex at a cell of the active region of its level, in thirty-seconds of a metre,
/// for windows of side 2^k - 2 and the active regions of at most 12 levels, finest first.
pub fn vertex_height(terrain: &Grid, k: u8, actives: &[Region], cell: &Cell) -> i32
    requires size { IsSize k }
    requires levels { length actives.now ≤ 12 }
    requires cell { IsDrawnCell actives.now cell.now }
    ensures value { result ≡ vertex_height terrain.now k actives.now cell.now.level cell.now.i cell.now.j }
{
    if usize::from(cell.level) + 1 == actives.len() {
        coarsest_height(terrain, cell)
    } else {
        finer_height(terrain, k, &active_at(actives, cell.level), cell)
    }
}
