//! Worked examples.

use crate::{blended, ends};
use clip_regions::Region;

const NARROW: Region = Region {
    x0: 4,
    y0: 4,
    x1: 8,
    y1: 8,
};

const WIDE: Region = Region {
    x0: 0,
    y0: 0,
    x1: 16,
    y1: 16,
};

#[test]
fn ends_of_odd_and_even_cells(rt: HostRuntime) {
    assert_eq!(rt; ends(4, -6), (2, -3, 2, -3));
    assert_eq!(rt; ends(-3, 8), (-2, 4, -1, 4));
    assert_eq!(rt; ends(5, -1), (2, -1, 3, 0));
    assert_eq!(rt;
        ends(2147483647, -2147483648),
        (1073741823, -1073741824, 1073741824, -1073741824)
    );
}

#[test]
#[tactic(auto, unfolding(clip_regions::specs::Regions::contains))]
fn heights_of_the_blend(rt: HostRuntime) {
    assert_eq!(rt; blended(4, false, NARROW, 4, 5, 0, 10, 13), 368);
    assert_eq!(rt; blended(8, false, WIDE, 3, 8, 100, 90, 95), 3005);
    assert_eq!(rt; blended(8, true, WIDE, 3, 8, 100, 90, 95), 3200);
    assert_eq!(rt; blended(4, false, NARROW, 5, 6, 100, 90, 95), 3200);
}
