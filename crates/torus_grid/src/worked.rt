//! Worked examples.

use crate::{Tile, Torus};
use clip_regions::Region;
use std::alloc::Global;
use std::test::Fail;
use strip_planner::{TileId, tile_of};

// A boxed tile and a torus move between threads, and a torus is shared by them.
fn moves<T: Send>(_value: &T) {}

fn is_shared<T: Sync>(_value: &T) {}

#[test]
fn tiles_move_between_threads(rt: HostRuntime) -> Result<(), Fail> {
    let tile: Box<Tile, Global> = Box::new(rt.alloc(), Tile::flat())?;
    moves(&tile);
    if let Ok(torus) = Torus::new(rt.alloc(), 4) {
        moves(&torus);
        is_shared(&torus);
    }
    Ok(())
}

#[test]
fn two_blocks_share_a_tile(rt: HostRuntime) -> Result<(), Fail> {
    // For K = 4, blocks (-1, -1) and (1, 1) of the window [-6, 8] have one tile, and cell (-6, 9) the place
    // (10, 9): its tile is (1, 1), and its place there (2, 1).
    let corner = tile_of(4, -1, -1);
    assert_eq!(rt; corner, TileId { tx: 1, ty: 1 });
    assert_eq!(rt; tile_of(4, 1, 1), corner);
    let mut tile = Tile::flat();
    let south_east = Region {
        x0: 8,
        y0: 8,
        x1: 8,
        y1: 8,
    };
    tile.write(south_east, &[9]);
    let west = Region {
        x0: -6,
        y0: 9,
        x1: -5,
        y1: 10,
    };
    tile.write(west, &[1, 2, 3, 4]);
    assert_eq!(rt; tile.cell(8, 8), 9);
    assert_eq!(rt; (tile.cell(-6, 9), tile.cell(-5, 9)), (1, 2));
    assert_eq!(rt; (tile.cell(10, 10), tile.cell(11, 10)), (3, 4));
    assert_eq!(rt; tile.row(9, 9).len(), 7);
    assert_eq!(rt; tile.row(10, 9).first().copied(), Some(1));
    Ok(())
}

#[test]
fn a_tile_goes_out_and_comes_home(rt: HostRuntime) -> Result<(), Fail> {
    let id = TileId { tx: 1, ty: 1 };
    let Ok(mut torus) = Torus::new(rt.alloc(), 4) else {
        return Err("no memory".into());
    };
    assert!(rt; torus.at_home(id));
    let mut tile = torus.take(id);
    assert!(rt; !torus.at_home(id) && torus.at_home(TileId { tx: 0, ty: 1 }));
    assert!(rt; !torus.at_home(TileId { tx: 2, ty: 0 }));
    let cells = Region {
        x0: -2,
        y0: -1,
        x1: -1,
        y1: -1,
    };
    tile.write(cells, &[5, -6]);
    torus.put(id, tile);
    assert!(rt; torus.at_home(id));
    Ok(())
}
