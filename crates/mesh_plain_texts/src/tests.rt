//! Worked examples of texts.

use crate::{Head, frame_text, seen_text};
use clip_regions::Region;
use mesh_model::{Bounds, HalfSpace, Part, PartKind, Vertex};
use std::test::Fail;

const VERTICES: [Vertex; 4] = [
    Vertex {
        x: 0,
        z: 0,
        height: 3005,
    },
    Vertex {
        x: 2,
        z: 0,
        height: 368,
    },
    Vertex {
        x: 0,
        z: 2,
        height: 0,
    },
    Vertex {
        x: 2,
        z: 2,
        height: -1,
    },
];

const TRIANGLES: [[u32; 3]; 2] = [[0, 2, 3], [0, 3, 1]];

const HEAD: Head = Head {
    number: 7,
    x: 1,
    y: -1,
};

const SQUARE: Region = Region {
    x0: 0,
    y0: 0,
    x1: 1,
    y1: 1,
};

const NONE: Region = Region {
    x0: 0,
    y0: 0,
    x1: -1,
    y1: -1,
};

#[test]
fn prints_frames(rt: HostRuntime) -> Result<(), Fail> {
    let text = frame_text(rt.alloc(), &HEAD, &[NONE, SQUARE], &VERTICES, &TRIANGLES)?;
    let wanted =
        b"# clipmap frame 7\n# viewer 1 -1\n# level 0 empty\n# level 1 active 0 0 1 1\nv 0 93.90625 0\nv 2 11.50000 0\nv 0 0.00000 2\nv 2 -0.03125 2\nf 1 3 4\nf 1 4 2\n";
    assert_eq!(rt; text.as_slice(), wanted.as_slice());
    Ok(())
}

const BOX: Bounds = Bounds {
    x0: 0,
    x1: 2,
    z0: 0,
    z1: 2,
    low: -1,
    high: 3005,
};

// A box of the same ends on the ground, but for its top.
const LOW: Bounds = Bounds {
    x0: 0,
    x1: 2,
    z0: 0,
    z1: 2,
    low: -1,
    high: 368,
};

// The points at 90 metres and above.
const HIGH_UP: HalfSpace = HalfSpace {
    a: 0,
    b: 1,
    c: 0,
    d: -90,
};

// A part of one triangle.
fn part(first: u32, bounds: Bounds) -> Part {
    Part {
        level: 1,
        kind: PartKind::Whole,
        first,
        count: 1,
        bounds,
    }
}

#[test]
fn prints_kept_parts(rt: HostRuntime) -> Result<(), Fail> {
    let parts = [part(0, LOW), part(1, BOX)];
    let text = seen_text(
        rt.alloc(),
        &HEAD,
        &[NONE, SQUARE],
        &VERTICES,
        &TRIANGLES,
        &parts,
        &[HIGH_UP],
    )?;
    let wanted =
        b"# clipmap frame 7\n# viewer 1 -1\n# level 0 empty\n# level 1 active 0 0 1 1\n# kept 1 of 2\nv 0 93.90625 0\nv 2 11.50000 0\nv 2 -0.03125 2\nf 1 3 2\n";
    assert_eq!(rt; text.as_slice(), wanted.as_slice());
    Ok(())
}
