use super::*;
use clip_regions::Region;
use store_reader::Header;

// 17 x 9 samples in two levels.
const HEADER: Header = Header {
    version: 1,
    width: 17,
    height: 9,
    levels: 2,
    step: 1,
};

// The number and the cells of a block.
fn found(level: u8, bx: i32, by: i32) -> Option<(u32, Region)> {
    let place = find_block(HEADER, level, bx, by)?;
    Some((place.number, place.cells))
}

// The cells from one to another.
fn region(x0: i32, y0: i32, x1: i32, y1: i32) -> Region {
    Region { x0, y0, x1, y1 }
}

#[test]
fn blocks_by_column_and_row(rt: HostRuntime) {
    assert_eq!(rt; block_total(HEADER), 8);
    for (level, bx, by, wanted) in [
        (1, 0, 0, Some((0, region(0, 0, 7, 4)))),
        (1, 1, 0, Some((1, region(8, 0, 8, 4)))),
        (0, 0, 0, Some((2, region(0, 0, 7, 7)))),
        (0, 2, 0, Some((4, region(16, 0, 16, 7)))),
        (0, 0, 1, Some((5, region(0, 8, 7, 8)))),
        (0, 2, 1, Some((7, region(16, 8, 16, 8)))),
        (0, 3, 0, None),
        (0, 0, 2, None),
        (0, -1, 0, None),
        (0, 0, i32::MIN, None),
        (2, 0, 0, None),
    ] {
        assert_eq!(rt; found(level, bx, by), wanted, "at {level} {bx} {by}");
    }
}
