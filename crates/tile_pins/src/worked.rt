//! Worked examples.

use crate::Pins;
use clip_regions::Region;
use std::test::Fail;
use strip_planner::TileId;

// Pins are shared by threads with the book that has them.
fn is_shared<T: Sync>(_value: &T) {}

fn moves<T: Send>(_value: &T) {}

#[test]
#[tactic(auto, unfolding(crate::specs::Pinned::no_pins))]
fn the_least_of_three_frames_and_then_the_next(rt: HostRuntime) -> Result<(), Fail> {
    let east = Region {
        x0: 8,
        y0: 0,
        x1: 14,
        y1: 6,
    };
    let west = Region {
        x0: -16,
        y0: 0,
        x1: -10,
        y1: 6,
    };
    // For K = 4 the torus has four tiles: the block of `west` has column -2, whose tile has column 0.
    let first = TileId { tx: 0, ty: 0 };
    let second = TileId { tx: 1, ty: 0 };
    let Ok(mut pins) = Pins::new(rt.alloc(), 4) else {
        return Err("no memory".into());
    };
    assert_eq!(rt; pins.first_frame(first), None);
    pins.pin(0, 7, east);
    pins.pin(3, 5, west);
    pins.pin(15, 6, west);
    assert_eq!(rt; pins.first_frame(first), Some(5));
    assert_eq!(rt; pins.first_frame(second), Some(7));
    pins.unpin(3);
    assert_eq!(rt; pins.first_frame(first), Some(6));
    pins.unpin(15);
    assert_eq!(rt; pins.first_frame(first), None);
    assert_eq!(rt; pins.first_frame(TileId { tx: 2, ty: 0 }), None);
    moves(&pins);
    is_shared(&pins);
    Ok(())
}
