//! Active regions.

use crate::tests::scripts::region;
use crate::{actives, are_near};
use clip_regions::Region;
use level_frame::window;
use std::test::Fail;

const FILLED: [Region; 2] = [
    Region {
        x0: 0,
        y0: 0,
        x1: 8,
        y1: 8,
    },
    Region {
        x0: 0,
        y0: 0,
        x1: 6,
        y1: 6,
    },
];

const MOVED: [Region; 1] = [Region {
    x0: 10,
    y0: -14,
    x1: 16,
    y1: 16,
}];

const NARROW: [Region; 2] = [
    Region {
        x0: 0,
        y0: 0,
        x1: 8,
        y1: 8,
    },
    Region {
        x0: 0,
        y0: 0,
        x1: 2,
        y1: 2,
    },
];

#[test]
fn the_finer_region_lies_inside(rt: HostRuntime) -> Result<(), Fail> {
    assert!(rt; are_near(&FILLED) && are_near(&NARROW));
    let active = actives(rt.alloc(), 4, 0, &FILLED)?;
    let wanted = [region(4, 4, 8, 8), region(0, 0, 6, 6)];
    assert_eq!(rt; active.as_slice(), wanted.as_slice());
    let narrow = actives(rt.alloc(), 4, 0, &NARROW)?;
    let wanted = [Region::empty(), region(0, 0, 2, 2)];
    assert_eq!(rt; narrow.as_slice(), wanted.as_slice());
    Ok(())
}

#[test]
fn what_a_move_left_of_a_window(rt: HostRuntime) -> Result<(), Fail> {
    assert_eq!(rt;
        window(5, 0, 0, 0).meet(window(5, 0, 25, 1)),
        region(10, -14, 16, 16)
    );
    assert!(rt; are_near(&MOVED));
    let active = actives(rt.alloc(), 5, 0, &MOVED)?;
    assert_eq!(rt; active.as_slice(), MOVED.as_slice());
    Ok(())
}

#[test]
fn six_levels_round_a_viewer(rt: HostRuntime) -> Result<(), Fail> {
    let filled = [
        window(6, 0, 600, 600),
        window(6, 1, 600, 600),
        window(6, 2, 600, 600),
        window(6, 3, 600, 600),
        window(6, 4, 600, 600),
        window(6, 5, 600, 600),
    ];
    assert!(rt; are_near(&filled));
    let active = actives(rt.alloc(), 6, 0, &filled)?;
    let wanted = [
        region(570, 570, 632, 632),
        region(270, 270, 332, 332),
        region(120, 120, 182, 182),
        region(44, 44, 106, 106),
        region(6, 6, 68, 68),
        region(-12, -12, 50, 50),
    ];
    assert_eq!(rt; active.as_slice(), wanted.as_slice());
    Ok(())
}
