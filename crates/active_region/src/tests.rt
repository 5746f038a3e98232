//! Worked examples.

use crate::actives;
use clip_regions::Region;

// The filled regions of two levels.
const FILLED: [Region; 2] = [
    Region {
        x0: 0,
        y0: 0,
        x1: 8,
        y1: 8,
    },
    Region {
        x0: 0,
        y0: 0,
        x1: 6,
        y1: 6,
    },
];

// The same finer level over less of the coarser one.
const NARROW: [Region; 2] = [
    Region {
        x0: 0,
        y0: 0,
        x1: 8,
        y1: 8,
    },
    Region {
        x0: 0,
        y0: 0,
        x1: 2,
        y1: 2,
    },
];

#[test]
fn a_finer_level_lies_a_margin_inside(rt: HostRuntime) {
    let drawn = actives(&FILLED, 4, 0);
    let inner = Region {
        x0: 4,
        y0: 4,
        x1: 8,
        y1: 8,
    };
    assert_eq!(rt; drawn.levels(), 2);
    assert_eq!(rt; drawn.at(0), inner);
    assert_eq!(rt; drawn.at(1), FILLED[1]);
}

#[test]
fn a_narrow_coarser_level_hides_the_finer(rt: HostRuntime) {
    let drawn = actives(&NARROW, 4, 0);
    assert_eq!(rt; drawn.at(0), Region::empty());
    assert_eq!(rt; drawn.at(1), NARROW[1]);
}

#[test]
fn a_level_below_the_finest_in_use_shows_nothing(rt: HostRuntime) {
    let drawn = actives(&FILLED, 4, 1);
    assert_eq!(rt; drawn.at(0), Region::empty());
    assert_eq!(rt; drawn, actives(&FILLED, 4, 1));
}
