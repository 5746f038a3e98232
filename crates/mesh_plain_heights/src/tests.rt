//! Worked examples.

use crate::{Cell, blend_share, lower_end, upper_end, vertex_height};
use clip_regions::Region;
use height_pyramid::Grid;
use std::alloc::Global;
use std::test::Fail;

const FINE: Region = Region {
    x0: 4,
    y0: 4,
    x1: 8,
    y1: 8,
};

const COARSE: Region = Region {
    x0: 0,
    y0: 0,
    x1: 6,
    y1: 6,
};

const WIDE: Region = Region {
    x0: 0,
    y0: 0,
    x1: 16,
    y1: 16,
};

const WIDER: Region = Region {
    x0: 0,
    y0: 0,
    x1: 8,
    y1: 8,
};

// Nine columns and nine rows of heights, most of them 0.
fn terrain(alloc: Global) -> Result<Grid, Fail> {
    let mut heights = vec![in alloc; 0i16; 81]?;
    heights[4 * 9 + 4] = 10;
    heights[6 * 9 + 4] = 13;
    heights[8 * 9 + 2] = 90;
    heights[8 * 9 + 3] = 100;
    heights[8 * 9 + 4] = 95;
    Ok(Grid::new(9, 9, heights))
}

#[test]
fn shares_fall_towards_the_inside(rt: HostRuntime) {
    let border = Cell {
        level: 0,
        i: 4,
        j: 5,
    };
    let inside = Cell {
        level: 1,
        i: 3,
        j: 3,
    };
    assert_eq!(rt; blend_share(4, false, &FINE, &border), 1);
    assert_eq!(rt; blend_share(8, false, &COARSE, &inside), 13);
    assert_eq!(rt; blend_share(8, true, &COARSE, &inside), 0);
    assert_eq!(rt; (lower_end(-3), upper_end(-3)), (-2, -1));
}

#[test]
fn blends_heights(rt: HostRuntime) -> Result<(), Fail> {
    let terrain = terrain(rt.alloc())?;
    let border = Cell {
        level: 0,
        i: 4,
        j: 5,
    };
    assert_eq!(rt; vertex_height(&terrain, 4, &[FINE, COARSE], &border), 368);
    let inside = Cell {
        level: 0,
        i: 3,
        j: 8,
    };
    assert_eq!(rt; vertex_height(&terrain, 8, &[WIDE, WIDER], &inside), 3005);
    assert_eq!(rt; vertex_height(&terrain, 8, &[WIDE], &inside), 3200);
    Ok(())
}
