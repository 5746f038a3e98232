//! The window of each level: the square of cells round the viewer that a level of the clipmap keeps.
//!
//! K, from 4 to 8, sets the size of every window: it has 2^K − 1 vertices a side (Losasso and Hoppe 2004).
#![tactic(auto)]

ghost use Rattle.std.specs.Prelude.{◌≡◌, ℕ, ◌+◌, ◌*◌, ◌^◌, ◌≤◌, false, ℤ, pos, neg_ℤ, ◌+ℤ◌, ◌-ℤ◌, ◌*ℤ◌, ◌≤ℤ◌};
ghost use Rattle.clip_regions.specs.Regions.{is_empty, IsPlaced, HasEvenCorners};
ghost use Rattle.plan_model.specs.Limits.{IsSize, IsViewed};
ghost use Rattle.plan_model.specs.Window.{window, center, half_width, blend_width, margin, torus_side, IsInReach};

use clip_regions::{Region, floor_div};

// 2 to a power of at most 12.
fn power_of_two(power: u8) -> i32
    requires { power ≤ 12 }
    ensures value { result ≡ pos (2 ^ power) }
    ensures low { pos 1 ≤ℤ result }
    ensures high { result ≤ℤ pos 4096 }
{
    1 << power
}

/// The side of a torus in cells: 2^K.
pub fn torus_side(k: u8) -> i32
    requires { IsSize k }
    ensures value { result ≡ pos (torus_side k) }
    ensures low { pos 16 ≤ℤ result }
    ensures high { result ≤ℤ pos 256 }
{
    power_of_two(k)
}

/// How many cells a window reaches from its centre, on each side: 2^(K − 1) − 1.
pub fn half_width(k: u8) -> i32
    requires { IsSize k }
    ensures value { result ≡ pos (half_width k) }
    ensures low { pos 7 ≤ℤ result }
    ensures high { result ≤ℤ pos 127 }
{
    power_of_two(k - 1) - 1
}

/// How many cells of a level's border blend into the coarser level: 2^(K − 4).
pub fn blend_width(k: u8) -> i32
    requires { IsSize k }
    ensures value { result ≡ pos (blend_width k) }
    ensures low { pos 1 ≤ℤ result }
    ensures high { result ≤ℤ pos 16 }
{
    power_of_two(k - 4)
}

/// How many coarser cells lie round a finer active region at least: the blend width, but not below 2.
pub fn margin(k: u8) -> i32
    requires { IsSize k }
    ensures value { result ≡ pos (margin k) }
    ensures low { pos 2 ≤ℤ result }
    ensures high { result ≤ℤ pos 16 }
{
    blend_width(k).max(2)
}

// The centre of a level's window on one axis, for a viewer at `v`: within one spacing of the viewer.
fn center(level: u8, v: i32) -> i32
    requires level { level ≤ 11 }
    requires v { IsViewed v }

    // It is the centre of the definition, within one spacing of the viewer.
    ensures value { result ≡ center level v }
    ensures low { neg_ℤ (pos 8388609) ≤ℤ result }
    ensures high { result ≤ℤ pos 8388609 }
    ensures west { (v -ℤ pos (2 ^ level)) ≤ℤ (result *ℤ pos (2 ^ level)) }
    ensures east { (result *ℤ pos (2 ^ level)) ≤ℤ (v +ℤ pos (2 ^ level)) }
{
    2 * floor_div(v, power_of_two(level + 1)) + 1
}

/// The window of a level for a viewer at sample (`x`, `y`) of the mosaic, in cells of that level.
///
/// Level 0 is the finest. A window has even corners and 2^K − 1 cells a side.
pub fn window(k: u8, level: u8, x: i32, y: i32) -> Region
    requires k { IsSize k }
    requires level { level ≤ 11 }
    requires x { IsViewed x }
    requires y { IsViewed y }

    // It is the window of the definition.
    ensures value { result ≡ window k level x y }

    // Its corners are even, its sides those of the size, and it lies where the levels reach.
    ensures placed { IsPlaced result }
    ensures even { HasEvenCorners result }
    ensures not_empty { is_empty result ≡ false }
    ensures columns { result.x1 ≡ result.x0 +ℤ pos (2 * half_width k) }
    ensures rows { result.y1 ≡ result.y0 +ℤ pos (2 * half_width k) }
    ensures in_reach { IsInReach level result }
{
    let half = half_width(k);
    let column = center(level, x);
    let row = center(level, y);
    Region {
        x0: column - half,
        y0: row - half,
        x1: column + half,
        y1: row + half,
    }
}

#[cfg(test)]
mod tests {
    use super::*;

    #[test]
    fn worked_windows(rt: HostRuntime) {
        assert_eq!(rt;
            window(4, 0, -1, -1),
            Region {
                x0: -8,
                y0: -8,
                x1: 6,
                y1: 6
            }
        );
        let corner = Region {
            x0: -4194310,
            y0: 4194298,
            x1: -4194296,
            y1: 4194312,
        };
        assert_eq!(rt; window(4, 0, -4194304, 4194304), corner);
        let coarsest = window(4, 11, -4194304, 4194304);
        assert_eq!(rt; (coarsest.x0, coarsest.x1), (-2054, -2040));
    }

    #[test]
    fn widths_of_the_least_and_the_greatest_k(rt: HostRuntime) {
        assert_eq!(rt;
            (torus_side(4), half_width(4), blend_width(4), margin(4)),
            (16, 7, 1, 2)
        );
        assert_eq!(rt;
            (torus_side(8), half_width(8), blend_width(8), margin(8)),
            (256, 127, 16, 16)
        );
    }
}
