//! Worked examples of whole meshes.

ghost use Rattle.plan_model.specs.Limits.{IsSize};
ghost use Rattle.std.specs.Prelude.{◌≤◌, length};

use crate::{Head, PlainMesh, are_drawn, few_triangles, few_vertices, kept_text, mesh, whole_text};
use clip_regions::Region;
use height_pyramid::Grid;
use mesh_model::{Bounds, HalfSpace, PartKind, Vertex};
use obj_frames::NoMemory;
use std::alloc::{AllocError, Global};
use std::process::Abort;
use std::test::Fail;

const FINE: Region = Region {
    x0: 4,
    y0: 4,
    x1: 8,
    y1: 8,
};

const COARSE: Region = Region {
    x0: 0,
    y0: 0,
    x1: 6,
    y1: 6,
};

const NONE: Region = Region {
    x0: 0,
    y0: 0,
    x1: -1,
    y1: -1,
};

const SMALL: Region = Region {
    x0: 0,
    y0: 0,
    x1: 2,
    y1: 2,
};

const WINDOW: Region = Region {
    x0: -6,
    y0: -6,
    x1: 8,
    y1: 8,
};

// A terrain of 3 × 3 samples of height 0.
fn flat(alloc: Global) -> Result<Grid, AllocError> {
    let heights = vec![in alloc; 0i16, 0, 0, 0, 0, 0, 0, 0, 0]?;
    Ok(Grid::new(3, 3, heights))
}

// The mesh of these active regions over a flat terrain, for blends of this k.
fn mesh_over(
    rt: &impl Abort,
    alloc: Global,
    k: u8,
    actives: &[Region],
) -> Result<PlainMesh, NoMemory>
    requires few { length actives.now ≤ 12 }
    requires size { IsSize k }
{
    let terrain = flat(alloc)?;
    assert!(rt; are_drawn(actives));
    let vertices = few_vertices(alloc, actives)?;
    assert!(rt; vertices);
    let triangles = few_triangles(alloc, actives)?;
    assert!(rt; triangles);
    mesh(alloc, &terrain, k, actives)
}

#[test]
fn a_finer_region_in_a_coarser(rt: HostRuntime) -> Result<(), Fail> {
    let found = mesh_over(&rt, rt.alloc(), 4, &[FINE, COARSE])?;
    assert_eq!(rt; found.vertices().len(), 65);
    assert_eq!(rt; found.triangles().len(), 104);
    assert_eq!(rt; found.parts().len(), 9);
    let north = found.parts().get(1).copied().expect(&rt, "a part");
    assert!(rt; north.kind == PartKind::North);
    assert_eq!(rt; (north.level, north.first, north.count), (1, 32, 24));
    assert_eq!(rt;
        north.bounds,
        Bounds {
            x0: 0,
            x1: 12,
            z0: 0,
            z1: 4,
            low: 0,
            high: 0
        }
    );
    let stitches = found.parts().get(5).copied().expect(&rt, "a part");
    assert!(rt; stitches.kind == PartKind::StitchNorth);
    assert_eq!(rt;
        (stitches.level, stitches.first, stitches.count),
        (0, 96, 2)
    );
    Ok(())
}

#[test]
fn an_empty_finer_region(rt: HostRuntime) -> Result<(), Fail> {
    let found = mesh_over(&rt, rt.alloc(), 4, &[NONE, SMALL])?;
    assert_eq!(rt; found.vertices().len(), 9);
    assert_eq!(rt; found.triangles().len(), 8);
    assert_eq!(rt; found.parts().len(), 1);
    Ok(())
}

#[test]
fn two_whole_windows(rt: HostRuntime) -> Result<(), Fail> {
    let found = mesh_over(&rt, rt.alloc(), 4, &[WINDOW, WINDOW])?;
    assert_eq!(rt; found.vertices().len(), 386);
    assert_eq!(rt; found.triangles().len(), 714);
    assert_eq!(rt;
        found.vertices().get(225).copied(),
        Some(Vertex {
            x: -12,
            z: -12,
            height: 0
        })
    );
    assert_eq!(rt; found.triangles().get(686).copied(), Some([0u32, 1, 2]));
    Ok(())
}

// A square of cells, from its first column and row to its last.
const fn square(from: i32, to: i32) -> Region {
    Region {
        x0: from,
        y0: from,
        x1: to,
        y1: to,
    }
}

#[test]
fn six_levels_round_a_viewer(rt: HostRuntime) -> Result<(), Fail> {
    let actives = [
        square(570, 632),
        square(270, 332),
        square(120, 182),
        square(44, 106),
        square(6, 68),
        square(-12, 50),
    ];
    let found = mesh_over(&rt, rt.alloc(), 6, &actives)?;
    assert_eq!(rt; found.vertices().len(), 18694);
    assert_eq!(rt; found.triangles().len(), 37138);
    Ok(())
}

// The half-space of no point.
const NOWHERE: HalfSpace = HalfSpace {
    a: 0,
    b: 0,
    c: 0,
    d: -1,
};

#[test]
fn the_text_of_two_whole_windows(rt: HostRuntime) -> Result<(), Fail> {
    let head = Head {
        number: 0,
        x: 1,
        y: 1,
    };
    let actives = [WINDOW, WINDOW];
    let terrain = flat(rt.alloc())?;
    assert!(rt; are_drawn(&actives));
    let vertices = few_vertices(rt.alloc(), &actives)?;
    assert!(rt; vertices);
    let triangles = few_triangles(rt.alloc(), &actives)?;
    assert!(rt; triangles);
    let text = whole_text(rt.alloc(), &head, &terrain, 4, &actives)?;
    let start =
        b"# clipmap frame 0\n# viewer 1 1\n# level 0 active -6 -6 8 8\n# level 1 active -6 -6 8 8\nv -6 0.00000 -6\n";
    assert!(rt; text.as_slice().starts_with(start));
    assert_eq!(rt;
        line(text.as_slice(), 4 + 225),
        b"v -12 0.00000 -12".as_slice()
    );
    assert_eq!(rt; line(text.as_slice(), 4 + 386 + 686), b"f 1 2 3".as_slice());
    let none = kept_text(rt.alloc(), &head, &terrain, 4, &actives, &[NOWHERE])?;
    let nothing =
        b"# clipmap frame 0\n# viewer 1 1\n# level 0 active -6 -6 8 8\n# level 1 active -6 -6 8 8\n# kept 0 of 9\n";
    assert_eq!(rt; none.as_slice(), nothing.as_slice());
    Ok(())
}

// The line of this number, counted from 0, without its line feed.
fn line(text: &[u8], number: usize) -> &[u8] {
    let mut rest = text.split(|byte| *byte == b'\n');
    let mut found = rest.next();
    for _ in 0..number {
        found = rest.next();
    }
    found.unwrap_or(&[])
}

#[test]
fn regions_that_are_not_drawn(rt: HostRuntime) {
    let odd = Region {
        x0: 1,
        y0: 0,
        x1: 3,
        y1: 2,
    };
    let far = Region {
        x0: 0,
        y0: 0,
        x1: 2,
        y1: 16777218,
    };
    assert!(rt; are_drawn(&[FINE, COARSE]));
    assert!(rt; !are_drawn(&[odd]));
    assert!(rt; !are_drawn(&[far]));
}
