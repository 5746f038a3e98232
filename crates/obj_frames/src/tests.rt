//! Worked texts.

use crate::{Bounds, Header, Mesh, Part, PartKind, Vertex, cull, frame_text, seen_text};
use active_region::actives;
use clip_regions::Region;
use std::test::Fail;

// Whole windows of two levels round a viewer at (1, 1), for K = 4.
const WINDOWS: [Region; 2] = [
    Region {
        x0: -6,
        y0: -6,
        x1: 8,
        y1: 8,
    },
    Region {
        x0: -6,
        y0: -6,
        x1: 8,
        y1: 8,
    },
];

// A level of which nothing is filled.
const NOTHING: [Region; 1] = [Region {
    x0: 0,
    y0: 0,
    x1: -1,
    y1: -1,
}];

#[test]
fn prints_heights(rt: HostRuntime) -> Result<(), Fail> {
    let vertices = vec![in rt.alloc();
        Vertex {
            x: -6,
            z: -5,
            height: 0
        },
        Vertex {
            x: 1,
            z: 2,
            height: -1
        },
        Vertex {
            x: 3,
            z: -4,
            height: 368
        },
        Vertex {
            x: 0,
            z: 0,
            height: 3005
        },
        Vertex {
            x: 0,
            z: 0,
            height: -65537
        },
    ]?;
    let mesh = Mesh::new(vertices, Vec::new(rt.alloc()), Vec::new(rt.alloc()));
    let header = Header {
        number: 18446744073709551615,
        x: -3,
        y: 5,
        actives: actives(&NOTHING, 4, 0),
    };
    let text = frame_text(rt.alloc(), &mesh, &header)?;
    let wanted =
        b"# clipmap frame 18446744073709551615\n# viewer -3 5\n# level 0 empty\nv -6 0.00000 -5\nv 1 -0.03125 2\nv 3 11.50000 -4\nv 0 93.90625 0\nv 0 -2048.03125 0\n";
    assert_eq!(rt; text.as_slice(), wanted.as_slice());
    Ok(())
}

#[test]
fn prints_and_gives_back_a_triangle(rt: HostRuntime) -> Result<(), Fail> {
    let vertices = vec![in rt.alloc();
        Vertex {
            x: -6,
            z: -6,
            height: 32
        },
        Vertex {
            x: -6,
            z: -5,
            height: 64
        },
        Vertex {
            x: -5,
            z: -5,
            height: 96
        },
    ]?;
    let bounds = Bounds {
        x0: -6,
        x1: -5,
        z0: -6,
        z1: -5,
        low: 32,
        high: 96,
    };
    let part = Part {
        level: 0,
        kind: PartKind::Whole,
        first: 0,
        count: 1,
        bounds,
    };
    let triangles = vec![in rt.alloc(); [0u32, 1, 2]]?;
    let parts = vec![in rt.alloc(); part]?;
    let mesh = Mesh::new(vertices, triangles, parts);
    let header = Header {
        number: 0,
        x: 1,
        y: 1,
        actives: actives(&WINDOWS, 4, 0),
    };
    let text = frame_text(rt.alloc(), &mesh, &header)?;
    let wanted =
        b"# clipmap frame 0\n# viewer 1 1\n# level 0 active -6 -6 8 8\n# level 1 active -6 -6 8 8\nv -6 1.00000 -6\nv -6 2.00000 -5\nv -5 3.00000 -5\nf 1 2 3\n";
    assert_eq!(rt; text.as_slice(), wanted.as_slice());
    assert_eq!(rt;
        (
            mesh.vertices().len(),
            mesh.triangles().len(),
            mesh.parts().len()
        ),
        (3, 1, 1)
    );
    let (_, triangles, parts) = mesh.apart();
    assert_eq!(rt; triangles.as_slice(), [[0u32, 1, 2]].as_slice());
    assert_eq!(rt; parts.as_slice(), [part].as_slice());
    Ok(())
}

#[test]
fn prints_kept_parts(rt: HostRuntime) -> Result<(), Fail> {
    let vertices = vec![in rt.alloc();
        Vertex {
            x: 0,
            z: 0,
            height: 3005
        },
        Vertex {
            x: 2,
            z: 0,
            height: 368
        },
        Vertex {
            x: 0,
            z: 2,
            height: 0
        },
        Vertex {
            x: 2,
            z: 2,
            height: -1
        },
    ]?;
    let bounds = Bounds {
        x0: 0,
        x1: 2,
        z0: 0,
        z1: 2,
        low: -1,
        high: 3005,
    };
    let part = Part {
        level: 0,
        kind: PartKind::Whole,
        first: 0,
        count: 1,
        bounds,
    };
    let triangles = vec![in rt.alloc(); [0u32, 3, 2]]?;
    let parts = vec![in rt.alloc(); part]?;
    let mesh = Mesh::new(vertices, triangles, parts);
    let header = Header {
        number: 7,
        x: 1,
        y: -1,
        actives: actives(&NOTHING, 4, 0),
    };
    let text = seen_text(rt.alloc(), &mesh, &header, &[true])?;
    let wanted =
        b"# clipmap frame 7\n# viewer 1 -1\n# level 0 empty\n# kept 1 of 1\nv 0 93.90625 0\nv 0 0.00000 2\nv 2 -0.03125 2\nf 1 3 2\n";
    assert_eq!(rt; text.as_slice(), wanted.as_slice());
    let all = cull(rt.alloc(), &mesh, &header, &[true])?;
    assert_eq!(rt; (all.parts, all.vertices, all.triangles), (1, 3, 1));
    let nothing = cull(rt.alloc(), &mesh, &header, &[false])?;
    let wanted = b"# clipmap frame 7\n# viewer 1 -1\n# level 0 empty\n# kept 0 of 1\n";
    assert_eq!(rt; nothing.text.as_slice(), wanted.as_slice());
    assert_eq!(rt;
        (nothing.parts, nothing.vertices, nothing.triangles),
        (0, 0, 0)
    );
    Ok(())
}
