//! Views that grow, and what they keep.

use crate::{Bounds, HalfSpace, View, is_outside, kept};

#[test]
fn keeps_the_order(rt: HostRuntime) {
    let first = HalfSpace {
        a: 1,
        b: 0,
        c: -1048576,
        d: -9,
    };
    let second = HalfSpace {
        a: 0,
        b: 1048576,
        c: 0,
        d: 1_099_511_627_776,
    };
    let mut view = View::empty();
    assert_eq!(rt; view.count(), 0);
    view.add(first);
    view.add(second);
    assert_eq!(rt; view.count(), 2);
    assert_eq!(rt; view.spaces(), [first, second].as_slice());
    let copy = view;
    view.add(first);
    assert!(rt; copy != view);
    view.add(second);
    view.add(second);
    view.add(first);
    assert_eq!(rt; view.count(), 6);
}

// The largest factor and the largest number that is added.
const FACTOR: i32 = 1 << 20;

const ADDED: i64 = 1 << 40;

const BOX: Bounds = Bounds {
    x0: 0,
    x1: 2,
    z0: 0,
    z1: 2,
    low: -1,
    high: 3005,
};

// The points with a x + b h + c z + d at least 0.
fn half(a: i32, b: i32, c: i32, d: i64) -> HalfSpace {
    HalfSpace { a, b, c, d }
}

// A box of one point.
fn point(x: i32, height: i32, z: i32) -> Bounds {
    Bounds {
        x0: x,
        x1: x,
        z0: z,
        z1: z,
        low: height,
        high: height,
    }
}

#[test]
fn drops_boxes(rt: HostRuntime) {
    // A half-space that touches the box in its eastern face, one that touches it in one corner, and one above it all.
    let faces = half(1, 0, 0, -2);
    let corner = half(1, 32, 1, -3009);
    let above = half(0, 1, 0, -94);
    assert_eq!(rt;
        (
            is_outside(&faces, &BOX),
            is_outside(&corner, &BOX),
            is_outside(&above, &BOX)
        ),
        (false, false, true)
    );
    // The least step farther, and the corner is out.
    assert_eq!(rt; is_outside(&half(1, 32, 1, -3010), &BOX), true);
}

#[test]
fn keeps_all_or_nothing(rt: HostRuntime) {
    let mut view = View::empty();
    assert_eq!(rt; kept(&BOX, &view), true);
    view.add(HalfSpace {
        a: 1,
        b: 0,
        c: 0,
        d: -2,
    });
    assert_eq!(rt; kept(&BOX, &view), true);
    view.add(HalfSpace {
        a: 0,
        b: 0,
        c: 0,
        d: -1,
    });
    assert_eq!(rt; kept(&BOX, &view), false);
}

#[test]
fn keeps_points_up_to_the_limits(rt: HostRuntime) {
    // East and west, up and down, south and north of 2^20: the last point within and the first one out.
    let cases = [
        (
            half(FACTOR, 0, 0, -ADDED),
            point(FACTOR, 0, 0),
            point(FACTOR - 1, 0, 0),
        ),
        (
            half(-FACTOR, 0, 0, ADDED),
            point(FACTOR, 0, 0),
            point(FACTOR + 1, 0, 0),
        ),
        (
            half(0, FACTOR, 0, -ADDED),
            point(0, 32 * FACTOR, 0),
            point(0, 32 * FACTOR - 1, 0),
        ),
        (
            half(0, -FACTOR, 0, -ADDED),
            point(0, -32 * FACTOR, 0),
            point(0, 1 - 32 * FACTOR, 0),
        ),
        (
            half(0, 0, FACTOR, ADDED),
            point(0, 0, -FACTOR),
            point(0, 0, -FACTOR - 1),
        ),
        (
            half(0, 0, -FACTOR, -ADDED),
            point(0, 0, -FACTOR),
            point(0, 0, 1 - FACTOR),
        ),
        (
            half(FACTOR, FACTOR, FACTOR, ADDED),
            point(i32::MAX, i32::MAX, i32::MAX),
            point(i32::MIN, i32::MIN, i32::MIN),
        ),
        (
            half(-FACTOR, -FACTOR, -FACTOR, -ADDED),
            point(i32::MIN, i32::MIN, i32::MIN),
            point(i32::MAX, i32::MAX, i32::MAX),
        ),
    ];
    for (space, inside, outside) in cases {
        assert_eq!(rt;
            (is_outside(&space, &inside), is_outside(&space, &outside)),
            (false, true)
        );
    }
}
