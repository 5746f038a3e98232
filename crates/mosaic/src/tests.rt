use crate::{MosaicFault, join};
use height_pyramid::Grid;
use hgt_tiles::{Corner, HgtTile, TileFault, read_tile};
use std::alloc::Global;
use std::test::Fail;

// A tile of nine samples that are all one height, a small one.
fn flat_tile(alloc: Global, lat: i16, lon: i16, height: u8) -> Result<HgtTile, TileFault> {
    let mut bytes = [0u8; 18];
    for n in 0..9usize {
        bytes[2 * n + 1] = height;
    }
    read_tile(alloc, Corner { lat, lon }, &bytes)
}

// The heights of a grid, a digit each, with a `/` after each row. Each height is 0 to 9.
fn digits(alloc: Global, grid: &Grid) -> Result<String, Fail> {
    let mut text = String::new(alloc);
    for y in 0..grid.height() {
        for x in 0..grid.width() {
            let height = grid.level_height(0, x as i32, y as i32);
            text.push(char::from(b'0'.wrapping_add(height.to_be_bytes()[1])))?;
        }
        text.push('/')?;
    }
    Ok(text)
}

#[test]
fn the_northernmost_and_then_the_westernmost_tile_owns_a_sample(
    rt: HostRuntime,
) -> Result<(), Fail> {
    let mut tiles = Vec::new(rt.alloc());
    tiles.push(flat_tile(rt.alloc(), 0, 0, 1)?)?;
    tiles.push(flat_tile(rt.alloc(), 0, 1, 2)?)?;
    tiles.push(flat_tile(rt.alloc(), 1, 1, 3)?)?;
    let grid = join(rt.alloc(), tiles)?;
    assert_eq!(rt;
        digits(rt.alloc(), &grid)?.as_str(),
        "00333/00333/11333/11122/11122/"
    );
    Ok(())
}

#[test]
fn corners_south_and_west_of_zero(rt: HostRuntime) -> Result<(), Fail> {
    let mut tiles = Vec::new(rt.alloc());
    tiles.push(flat_tile(rt.alloc(), -1, 0, 2)?)?;
    tiles.push(flat_tile(rt.alloc(), 0, -1, 3)?)?;
    tiles.push(flat_tile(rt.alloc(), -1, -1, 1)?)?;
    tiles.push(flat_tile(rt.alloc(), 0, 0, 4)?)?;
    let grid = join(rt.alloc(), tiles)?;
    assert_eq!(rt;
        digits(rt.alloc(), &grid)?.as_str(),
        "33344/33344/33344/11122/11122/"
    );
    Ok(())
}

#[test]
fn faulty_sets_are_refused(rt: HostRuntime) -> Result<(), Fail> {
    assert_eq!(rt;
        join(rt.alloc(), Vec::new(rt.alloc())).err(),
        Some(MosaicFault::Empty)
    );

    let mut twins = Vec::new(rt.alloc());
    twins.push(flat_tile(rt.alloc(), 0, 0, 1)?)?;
    twins.push(flat_tile(rt.alloc(), 0, 1, 2)?)?;
    twins.push(flat_tile(rt.alloc(), 0, 0, 3)?)?;
    let corner = Corner { lat: 0, lon: 0 };
    assert_eq!(rt;
        join(rt.alloc(), twins).err(),
        Some(MosaicFault::Twice { corner })
    );

    let mut sides = Vec::new(rt.alloc());
    sides.push(flat_tile(rt.alloc(), 0, 0, 1)?)?;
    sides.push(read_tile(rt.alloc(), Corner { lat: 0, lon: 1 }, &[0; 32])?)?;
    let fault = MosaicFault::SidesDiffer { first: 3, other: 4 };
    assert_eq!(rt; join(rt.alloc(), sides).err(), Some(fault));
    Ok(())
}

#[test]
fn the_whole_globe_is_counted(rt: HostRuntime) -> Result<(), Fail> {
    // Side 200 at two corners that are 359 degrees of longitude and 179 of latitude apart.
    let mut bytes = Vec::new(rt.alloc());
    for _ in 0..80_000 {
        bytes.push(0u8)?;
    }
    let mut tiles = Vec::new(rt.alloc());
    tiles.push(read_tile(
        rt.alloc(),
        Corner {
            lat: -90,
            lon: -180,
        },
        bytes.as_slice(),
    )?)?;
    tiles.push(read_tile(rt.alloc(), Corner { lat: 89, lon: 179 }, bytes.as_slice())?)?;
    // 360 * 199 + 1 = 71641 columns by 180 * 199 + 1 = 35821 rows.
    let samples = 2_566_252_261;
    assert_eq!(rt;
        join(rt.alloc(), tiles).err(),
        Some(MosaicFault::TooLarge { samples })
    );
    Ok(())
}
