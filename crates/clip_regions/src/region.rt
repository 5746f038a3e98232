//! Rectangles of cells.

ghost use Rattle.std.specs.Prelude.{◌≡◌, ℕ, ◌^◌, ◌&&◌, ◌↔◌, IsTrue, Bool, true, false, ℤ, pos, ◌+ℤ◌, ◌-ℤ◌, ◌*ℤ◌, ◌≤ℤ◌, int_le, length};
ghost use Rattle.clip_regions.specs.Regions.{contains, is_empty, empty_region, spelled, meet, erode, halve, double, holds, area, cells, IsWithin, IsPlaced, HasEvenCorners};

use crate::division::floor_div;

/// A rectangle of cells: the columns `x0` to `x1` and the rows `y0` to `y1`, all four included.
///
/// x grows east and y grows south. The region is empty where `x0 > x1` or `y0 > y1`. Every call that
/// gives an empty region gives (0, 0, −1, −1).
#[derive(Clone, Copy, PartialEq, Eq, Debug)]
pub struct Region {
    /// The first column.
    pub x0: i32,
    /// The first row.
    pub y0: i32,
    /// The last column.
    pub x1: i32,
    /// The last row.
    pub y1: i32,
}

// Whether `first` is at or after `low` and `last` at or before `high`.
fn spans(low: i32, high: i32, first: i32, last: i32) -> bool
    ensures { result ≡ (int_le low first && int_le last high) }
{
    low <= first && last <= high
}

impl Region {
    /// The region of no cell.
    pub fn empty() -> Region
        ensures value { result ≡ empty_region }
        ensures cells { IsTrue (is_empty result) }
        ensures placed { IsPlaced result }
    {
        Region {
            x0: 0,
            y0: 0,
            x1: -1,
            y1: -1,
        }
    }

    /// Whether the region has no cell.
    pub fn is_empty(&self) -> bool
        ensures value { result ≡ is_empty self.now }
        ensures cells { IsTrue result ↔ ((i j : ℤ) → contains self.now i j ≡ false) }
    {
        self.x0 > self.x1 || self.y0 > self.y1
    }

    // The region, or (0, 0, −1, −1) where it has no cell.
    fn spelled(self) -> Region
        ensures value { result ≡ spelled self }
    {
        if self.is_empty() {
            Region::empty()
        } else {
            self
        }
    }

    /// The cells that lie in both regions.
    pub fn meet(self, other: Region) -> Region
        requires self_placed { IsPlaced self }
        requires other_placed { IsPlaced other }

        // It is the region of the definition, and its cells are those of both.
        ensures value { result ≡ meet self other }
        ensures cells { (i j : ℤ) → contains result i j ≡ (contains self i j && contains other i j) }

        // It is placed, and lies in both.
        ensures placed { IsPlaced result }
        ensures in_self { IsTrue (holds self result) }
        ensures in_other { IsTrue (holds other result) }
    {
        let both = Region {
            x0: self.x0.max(other.x0),
            y0: self.y0.max(other.y0),
            x1: self.x1.min(other.x1),
            y1: self.y1.min(other.y1),
        };
        both.spelled()
    }

    /// The region with each end moved inwards by `by` cells: a cell stays where the cells that lie `by`
    /// columns and `by` rows from it, both ways, are in the region.
    pub fn erode(self, by: i32) -> Region
        requires placed { IsPlaced self }
        requires low { pos 0 ≤ℤ by }
        requires high { by ≤ℤ pos (2 ^ 20) }

        // It is the region of the definition, by its cells.
        ensures value { result ≡ erode self by }
        ensures cells { (i j : ℤ) →
            contains result i j ≡ (contains self (i -ℤ by) (j -ℤ by) && contains self (i +ℤ by) (j +ℤ by)) }

        // It is placed, and lies in the region.
        ensures placed { IsPlaced result }
        ensures in_self { IsTrue (holds self result) }
    {
        let inner = Region {
            x0: self.x0 + by,
            y0: self.y0 + by,
            x1: self.x1 - by,
            y1: self.y1 - by,
        };
        inner.spelled()
    }

    /// The region in coordinates of half the size. All four corners are even.
    pub fn halve(self) -> Region
        requires placed { IsPlaced self }
        requires even { HasEvenCorners self }
        ensures value { result ≡ halve self }
        ensures cells { (i j : ℤ) → contains result i j ≡ contains self (pos 2 *ℤ i) (pos 2 *ℤ j) }
        ensures placed { IsPlaced result }
        ensures doubled { is_empty self ≡ false → double result ≡ self }
    {
        let half = Region {
            x0: floor_div(self.x0, 2),
            y0: floor_div(self.y0, 2),
            x1: floor_div(self.x1, 2),
            y1: floor_div(self.y1, 2),
        };
        half.spelled()
    }

    /// The region in coordinates of double the size: each corner doubled.
    pub fn double(self) -> Region
        requires placed { IsPlaced self }
        ensures value { result ≡ double self }
        ensures cells { (i j : ℤ) → contains result (pos 2 *ℤ i) (pos 2 *ℤ j) ≡ contains self i j }
        ensures within { IsWithin (2 ^ 29) result }
        ensures placed { IsWithin (2 ^ 27) self → IsPlaced result }
        ensures even { is_empty self ≡ false → HasEvenCorners result }
    {
        let twice = Region {
            x0: 2 * self.x0,
            y0: 2 * self.y0,
            x1: 2 * self.x1,
            y1: 2 * self.y1,
        };
        twice.spelled()
    }

    /// Whether the cell in column `i` and row `j` lies in the region.
    pub fn contains(self, i: i32, j: i32) -> bool
        ensures { result ≡ contains self i j }
    {
        spans(self.x0, self.x1, i, i) && spans(self.y0, self.y1, j, j)
    }

    /// Whether each cell of `other` lies in the region.
    pub fn holds(self, other: Region) -> bool
        ensures value { result ≡ holds self other }
        ensures cells { IsTrue result ↔ ((i j : ℤ) → IsTrue (contains other i j) → IsTrue (contains self i j)) }
    {
        other.is_empty()
            || (spans(self.x0, self.x1, other.x0, other.x1)
                && spans(self.y0, self.y1, other.y0, other.y1))
    }

    /// The number of cells.
    pub fn area(self) -> u64
        requires { IsPlaced self }
        ensures value { result ≡ area self }
        ensures cells { result ≡ length (cells self) }
        ensures none { IsTrue (is_empty self) ↔ (result ≡ 0) }
    {
        if self.is_empty() {
            return 0;
        }
        let columns = (self.x1 - self.x0 + 1) as u64;
        let rows = (self.y1 - self.y0 + 1) as u64;
        columns * rows
    }
}

#[cfg(test)]
mod tests {
    use super::*;

    const WINDOW: Region = Region {
        x0: -6,
        y0: -6,
        x1: 8,
        y1: 8,
    };

    const MOVED: Region = Region {
        x0: -4,
        y0: -6,
        x1: 10,
        y1: 8,
    };

    #[test]
    fn cells_of_two_windows(rt: HostRuntime) {
        assert_eq!(rt;
            WINDOW.meet(MOVED),
            Region {
                x0: -4,
                y0: -6,
                x1: 8,
                y1: 8
            }
        );
        assert_eq!(rt; WINDOW.area(), 225);
        assert!(rt; WINDOW.contains(-6, 8) && !WINDOW.is_empty() && !WINDOW.holds(MOVED));
    }

    #[test]
    fn moved_ends(rt: HostRuntime) {
        assert_eq!(rt;
            WINDOW.erode(2),
            Region {
                x0: -4,
                y0: -4,
                x1: 6,
                y1: 6
            }
        );
        assert_eq!(rt;
            MOVED.double(),
            Region {
                x0: -8,
                y0: -12,
                x1: 20,
                y1: 16
            }
        );
    }

    #[test]
    #[tactic(auto, unfolding(crate::specs::FloorDivision::floor_rem))]
    fn halves(rt: HostRuntime) {
        assert_eq!(rt;
            MOVED.halve(),
            Region {
                x0: -2,
                y0: -3,
                x1: 5,
                y1: 4
            }
        );
    }

    #[test]
    fn one_spelling_of_no_cell(rt: HostRuntime) {
        let east = Region {
            x0: 9,
            y0: 2,
            x1: 12,
            y1: 3,
        };
        assert_eq!(rt; WINDOW.meet(east), Region::empty());
        assert_eq!(rt; WINDOW.erode(8), Region::empty());
        assert_eq!(rt; Region::empty().double(), Region::empty());
    }
}
