//! Worked examples: what windows lack after a move, for K = 4, 5 and 8.

ghost use Rattle.std.specs.Prelude.{◌≡◌, IfOk};
ghost use Rattle.plan_model.specs.Strips.{pieces};
ghost use Rattle.strip_planner.specs.Planned.{IsPlanned};

use crate::{
    Piece, TileId, current_strip, hull, meets_tile, need, piece_count, pieces, strips, tile_of,
};
use clip_regions::Region;
use std::alloc::{AllocError, Global};
use std::test::Fail;

fn region(x0: i32, y0: i32, x1: i32, y1: i32) -> Region
    ensures { result ≡ record { x0 = x0; y0 = y0; x1 = x1; y1 = y1 } }
{
    Region { x0, y0, x1, y1 }
}

// The pieces of a strip, listed.
fn listed(alloc: Global, strip: Region) -> Result<Vec<Piece>, AllocError>
    requires { IsPlanned strip }
    ensures { IfOk result (λ v. v.items ≡ pieces strip) }
{
    pieces(strip).collect(alloc)
}

#[test]
fn a_move_east_lacks_one_strip(rt: HostRuntime) -> Result<(), Fail> {
    // The window [-6, 8] moves to (3, 1).
    let window = Region {
        x0: -4,
        y0: -6,
        x1: 10,
        y1: 8,
    };
    let filled = Region {
        x0: -4,
        y0: -6,
        x1: 8,
        y1: 8,
    };
    let strip = Region {
        x0: 9,
        y0: -6,
        x1: 10,
        y1: 8,
    };
    assert_eq!(rt; strips(filled, window).count(), 1);
    assert_eq!(rt; current_strip(filled, window), Some(strip));
    assert_eq!(rt; hull(filled, strip), window);
    assert_eq!(rt; piece_count(strip), 3);
    let all = listed(rt.alloc(), strip)?;
    let first = Piece {
        bx: 1,
        by: -1,
        cells: region(9, -6, 10, -1),
    };
    let last = Piece {
        bx: 1,
        by: 1,
        cells: region(9, 8, 10, 8),
    };
    assert_eq!(rt; all.len(), 3);
    assert_eq!(rt; all.first().copied(), Some(first));
    assert_eq!(rt; all.last().copied(), Some(last));
    assert_eq!(rt; tile_of(4, 1, -1), TileId { tx: 1, ty: 1 });
    assert_eq!(rt; need(strip), region(3, -4, 6, 5));
    assert!(rt; meets_tile(4, strip, TileId { tx: 1, ty: 0 }));
    assert!(rt; !meets_tile(4, strip, TileId { tx: 0, ty: 1 }));
    assert!(rt; !meets_tile(4, strip, TileId { tx: 2, ty: 0 }));
    Ok(())
}

#[test]
fn nothing_filled_lacks_the_window(rt: HostRuntime) -> Result<(), Fail> {
    let window = Region {
        x0: -6,
        y0: -6,
        x1: 8,
        y1: 8,
    };
    assert_eq!(rt; current_strip(Region::empty(), window), Some(window));
    assert_eq!(rt; current_strip(window, window), None);
    let all = listed(rt.alloc(), window)?;
    assert_eq!(rt; all.len(), 9);
    let second = Piece {
        bx: 0,
        by: -1,
        cells: region(0, -6, 7, -1),
    };
    let ninth = Piece {
        bx: 1,
        by: 1,
        cells: region(8, 8, 8, 8),
    };
    assert_eq!(rt; all.get(1).copied(), Some(second));
    assert_eq!(rt; all.last().copied(), Some(ninth));
    Ok(())
}

#[test]
fn four_strips_in_their_order(rt: HostRuntime) {
    let filled = Region {
        x0: 0,
        y0: 0,
        x1: 2,
        y1: 2,
    };
    let window = Region {
        x0: -6,
        y0: -4,
        x1: 8,
        y1: 10,
    };
    let all = strips(filled, window);
    assert_eq!(rt; all.count(), 4);
    assert_eq!(rt; all.at(0), region(-6, 0, -1, 2));
    assert_eq!(rt; all.at(1), region(3, 0, 8, 2));
    assert_eq!(rt; all.at(2), region(-6, -4, 8, -1));
    assert_eq!(rt; all.at(3), region(-6, 3, 8, 10));
}

#[test]
fn most_pieces_of_a_window(rt: HostRuntime) {
    // The window of K = 8 round the viewer (0, 0): it cuts blocks on both sides of both axes.
    let window = Region {
        x0: -126,
        y0: -126,
        x1: 128,
        y1: 128,
    };
    assert_eq!(rt; piece_count(window), 1089);
    assert_eq!(rt; pieces(window).count(), 1089);
    assert_eq!(rt; piece_count(Region::empty()), 0);
    assert_eq!(rt; pieces(Region::empty()).count(), 0);
}
