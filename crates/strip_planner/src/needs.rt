//! The coarser cells that cells need.

ghost use Rattle.std.specs.Prelude.{◌≡◌, pos, ◌+ℤ◌, ◌-ℤ◌, ◌≤ℤ◌, ◌<ℤ◌, ◌*ℤ◌};
ghost use Rattle.clip_regions.specs.FloorDivision.{floor_div};
ghost use Rattle.clip_regions.specs.Regions.{IsPlaced};
ghost use Rattle.plan_model.specs.Strips.{need};

use clip_regions::Region;

// The first coarser column or row that the cells from `cell` on need.
#[tactic(auto, unfolding(clip_regions::specs::FloorDivision::floor_div))]
fn need_from(cell: i32) -> i32
    ensures value { result ≡ floor_div cell 2 -ℤ pos 1 }
    ensures below { (pos 2 *ℤ result) ≤ℤ cell }
    ensures above { cell <ℤ (pos 2 *ℤ result +ℤ pos 4) }
{
    cell.div_euclid(2) - 1
}

// The last coarser column or row that the cells up to `cell` need. Half of the next cell, rounded down,
// is half of this one, rounded up.
#[tactic(auto, unfolding(clip_regions::specs::FloorDivision::floor_div))]
fn need_to(cell: i32) -> i32
    ensures value { result ≡ floor_div (cell +ℤ pos 1) 2 +ℤ pos 1 }
    ensures below { (pos 2 *ℤ result) ≤ℤ (cell +ℤ pos 3) }
    ensures above { cell <ℤ (pos 2 *ℤ result) }
{
    cell.div_euclid(2) + cell.rem_euclid(2) + 1
}

/// The coarser cells from which some cells are predicted and blended: their half and one more cell on
/// each side.
pub fn need(cells: Region) -> Region
    ensures value { result ≡ need cells }
    ensures placed { IsPlaced cells → IsPlaced result }
{
    let west = need_from(cells.x0);
    let north = need_from(cells.y0);
    let east = need_to(cells.x1);
    let south = need_to(cells.y1);
    Region {
        x0: west,
        y0: north,
        x1: east,
        y1: south,
    }
}
