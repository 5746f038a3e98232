//! The strip that a window lacks after a move to (3, 1), for K = 4.

use crate::{
    actives, block_of, current_strip, hull, need, pieces, tile_of, tile_of_cell, tiles_met,
    wrapped_place,
};
use clip_regions::Region;
use plan_model::{Piece, TileId};
use std::test::Fail;

const FILLED: Region = Region {
    x0: -4,
    y0: -6,
    x1: 8,
    y1: 8,
};

const WINDOW: Region = Region {
    x0: -4,
    y0: -6,
    x1: 10,
    y1: 8,
};

const STRIP: Region = Region {
    x0: 9,
    y0: -6,
    x1: 10,
    y1: 8,
};

#[test]
fn the_strip_and_its_pieces(rt: HostRuntime) -> Result<(), Fail> {
    assert_eq!(rt; current_strip(rt.alloc(), FILLED, WINDOW)?, Some(STRIP));
    assert_eq!(rt; hull(FILLED, STRIP), WINDOW);
    let all = pieces(rt.alloc(), STRIP)?;
    let first = Piece {
        bx: 1,
        by: -1,
        cells: Region {
            x0: 9,
            y0: -6,
            x1: 10,
            y1: -1,
        },
    };
    assert_eq!(rt; all.len(), 3);
    assert_eq!(rt; all.first().copied(), Some(first));
    Ok(())
}

#[test]
fn tiles_and_need_of_the_strip(rt: HostRuntime) -> Result<(), Fail> {
    assert_eq!(rt; tile_of(4, 1, -1), TileId { tx: 1, ty: 1 });
    let met = tiles_met(rt.alloc(), 4, STRIP)?;
    let wanted = [TileId { tx: 1, ty: 0 }, TileId { tx: 1, ty: 1 }];
    assert_eq!(rt; met.as_slice(), wanted.as_slice());
    let coarser = Region {
        x0: 3,
        y0: -4,
        x1: 6,
        y1: 5,
    };
    assert_eq!(rt; need(STRIP), coarser);
    Ok(())
}

#[test]
fn block_place_and_tile_of_a_cell(rt: HostRuntime) {
    assert_eq!(rt; block_of(-1, 9), (-1, 1));
    assert_eq!(rt; wrapped_place(4, -1, 9), (15, 9));
    assert_eq!(rt; tile_of_cell(4, -1, 9), TileId { tx: 1, ty: 1 });
}

#[test]
fn a_level_that_is_left_out_shows_nothing(rt: HostRuntime) -> Result<(), Fail> {
    let square = |side: i32| Region {
        x0: 0,
        y0: 0,
        x1: side,
        y1: side,
    };
    let filled = [square(8), square(6)];
    let used = actives(rt.alloc(), 4, 0, filled.as_slice())?;
    let finer = Region {
        x0: 4,
        y0: 4,
        x1: 8,
        y1: 8,
    };
    assert_eq!(rt; used.as_slice(), [finer, square(6)].as_slice());
    let high = actives(rt.alloc(), 4, 1, filled.as_slice())?;
    assert_eq!(rt; high.as_slice(), [Region::empty(), square(6)].as_slice());
    Ok(())
}
