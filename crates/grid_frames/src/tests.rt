//! Worked examples, and random frames beside those of the plain program.

ghost use Rattle.std.specs.Prelude.{◌≡◌, ◌≤◌, ◌<◌, length, IsTrue};
ghost use Rattle.plan_model.specs.Limits.{IsSize, IsViewed};
ghost use Rattle.plan_model.specs.Sound.{IsShown, IsEvenInside};

use crate::{Viewer, grid_mesh, whole_regions};
use active_region::{Actives, actives};
use clip_regions::{Region, wrap};
use height_pyramid::Grid;
use level_frame::window;
use mesh_plain::{are_drawn, few_triangles, few_vertices, mesh};
use obj_frames::{Bounds, Header, Mesh, NoMemory, Part, PartKind, Vertex, cull, seen_text};
use plan_model::windows_have_even_corners;
use region_cull::{HalfSpace, View, kept};
use std::alloc::{AllocError, Global};
use std::process::Abort;
use std::test::Fail;

// The filled regions of two levels, the second of which holds the first with a margin only in part.
const PARTLY: [Region; 2] = [
    Region {
        x0: 0,
        y0: 0,
        x1: 8,
        y1: 8,
    },
    Region {
        x0: 0,
        y0: 0,
        x1: 6,
        y1: 6,
    },
];

// The same finer level over less of the coarser one.
const NARROW: [Region; 2] = [
    Region {
        x0: 0,
        y0: 0,
        x1: 8,
        y1: 8,
    },
    Region {
        x0: 0,
        y0: 0,
        x1: 2,
        y1: 2,
    },
];

// A viewer near the mosaic's corner.
const NEAR: Viewer = Viewer { x: 1, y: 1 };

// A terrain of 3 × 3 samples of height 0.
fn flat(alloc: Global) -> Result<Grid, AllocError> {
    let heights = vec![in alloc; 0i16, 0, 0, 0, 0, 0, 0, 0, 0]?;
    Ok(Grid::new(3, 3, heights))
}

#[test]
fn two_whole_windows(rt: HostRuntime) -> Result<(), Fail> {
    let regions = whole_regions(4, 2, &NEAR);
    let made = grid_mesh(rt.alloc(), 4, &regions, &flat(rt.alloc())?)?;
    assert_eq!(rt; made.vertices().len(), 386);
    assert_eq!(rt; made.triangles().len(), 714);
    let vertex = Vertex {
        x: -12,
        z: -12,
        height: 0,
    };
    assert_eq!(rt; made.vertices().get(225), Some(&vertex));
    assert_eq!(rt; made.triangles().get(686), Some(&[0u32, 1, 2]));
    Ok(())
}

#[test]
fn a_view_keeps_three_of_nine_parts(rt: HostRuntime) -> Result<(), Fail> {
    let regions = whole_regions(4, 2, &NEAR);
    let made = grid_mesh(rt.alloc(), 4, &regions, &flat(rt.alloc())?)?;
    // The points from column 9 on: of the coarser level's ring all but its western part.
    let mut view = View::empty();
    view.add(HalfSpace {
        a: 1,
        b: 0,
        c: 0,
        d: -9,
    });
    let parts = made.parts().iter();
    let keep: Vec<bool> = parts
        .map(|part| kept(&part.bounds, &view))
        .collect(rt.alloc())?;
    let header = Header {
        number: 0,
        x: 1,
        y: 1,
        actives: regions,
    };
    let culled = cull(rt.alloc(), &made, &header, keep.as_slice())?;
    assert_eq!(rt;
        (culled.parts, culled.vertices, culled.triangles),
        (3, 165, 252)
    );
    let head =
        b"# clipmap frame 0\n# viewer 1 1\n# level 0 active -6 -6 8 8\n# level 1 active -6 -6 8 8\n# kept 3 of 9\nv -6 0.00000 -6\n";
    assert!(rt; culled.text.as_slice().starts_with(head));
    let text = seen_text(rt.alloc(), &made, &header, keep.as_slice())?;
    assert!(rt; text.as_slice() == culled.text.as_slice());
    Ok(())
}

#[test]
fn a_finer_region_in_a_coarser(rt: HostRuntime) -> Result<(), Fail> {
    let terrain = flat(rt.alloc())?;
    let drawn = partly_filled(4, &NEAR, &PARTLY);
    let made = grid_mesh(rt.alloc(), 4, &drawn, &terrain)?;
    assert_eq!(rt; made.vertices().len(), 65);
    assert_eq!(rt; made.triangles().len(), 104);
    assert_eq!(rt; made.parts().len(), 9);
    let stitches = [
        [0u32, 1, 2],
        [2, 3, 4],
        [4, 9, 14],
        [14, 19, 24],
        [24, 23, 22],
        [22, 21, 20],
        [20, 15, 10],
        [10, 5, 0],
    ];
    assert_eq!(rt; &made.triangles()[96..], stitches.as_slice());
    let east = Part {
        level: 0,
        kind: PartKind::StitchEast,
        first: 98,
        count: 2,
        bounds: Bounds {
            x0: 8,
            x1: 8,
            z0: 4,
            z1: 8,
            low: 0,
            high: 0,
        },
    };
    assert_eq!(rt; made.parts().get(6), Some(&east));
    Ok(())
}

#[test]
fn an_empty_finer_region(rt: HostRuntime) -> Result<(), Fail> {
    let drawn = partly_filled(4, &NEAR, &NARROW);
    let made = grid_mesh(rt.alloc(), 4, &drawn, &flat(rt.alloc())?)?;
    assert_eq!(rt; made.vertices().len(), 9);
    assert_eq!(rt; made.triangles().len(), 8);
    assert_eq!(rt; made.parts().len(), 1);
    Ok(())
}

// The next number of a generator of 64 bits, and so many bits of it.
fn drawn(seed: &mut u64, below: u32) -> u32
    requires { 1 ≤ below }
    ensures { result < below }
{
    *seed = seed
        .wrapping_mul(6364136223846793005)
        .wrapping_add(1442695040888963407);
    let high = (*seed >> 33) as u32;
    high % below
}

// A terrain of so many columns and rows of random heights.
fn random_terrain(alloc: Global, seed: &mut u64, side: u32) -> Result<Grid, AllocError>
    requires some { 1 ≤ side }
    requires few { side ≤ 100 }
{
    let count = side as usize * side as usize;
    let mut heights = Vec::new(alloc);
    heights.resize(count, 0i16)?;
    for height in heights.as_mut_slice() {
        *height = drawn(seed, 30000) as i16 - 15000;
    }
    Ok(Grid::new(side, side, heights))
}

// Whether a region with even corners lies inside a window.
fn lies_inside(whole: &Region, part: &Region) -> bool
    ensures { IsTrue result → IsEvenInside whole.now part.now }
{
    if part.x0 < whole.x0 || part.x1 < part.x0 || whole.x1 < part.x1 {
        return false;
    }
    if part.y0 < whole.y0 || part.y1 < part.y0 || whole.y1 < part.y1 {
        return false;
    }
    if wrap(part.x0, 2) != 0 || wrap(part.x1, 2) != 0 {
        return false;
    }
    if wrap(part.y0, 2) != 0 || wrap(part.y1, 2) != 0 {
        return false;
    }
    true
}

// This part of a level's window, or the whole window where it isn't one.
fn filled_part(k: u8, level: u8, viewer: &Viewer, part: &Region) -> Region
    requires k { IsSize k }
    requires level { level ≤ 11 }
    requires x { IsViewed viewer.now.x }
    requires y { IsViewed viewer.now.y }
    ensures { IsShown k level result }
{
    windows_have_even_corners();
    let whole = window(k, level, viewer.x, viewer.y);
    if lies_inside(&whole, part) {
        *part
    } else {
        whole
    }
}

// The active regions of two levels whose windows round a viewer are filled in these parts.
fn partly_filled(k: u8, viewer: &Viewer, parts: &[Region; 2]) -> Actives
    requires k { IsSize k }
    requires x { IsViewed viewer.now.x }
    requires y { IsViewed viewer.now.y }
    ensures { length result ≡ 2 }
{
    let filled = [
        filled_part(k, 0, viewer, &parts[0]),
        filled_part(k, 1, viewer, &parts[1]),
    ];
    actives(&filled, k, 0)
}

// A random part of a level's window round a viewer.
fn random_part(seed: &mut u64, k: u8, level: u8, viewer: &Viewer) -> Region
    requires k { IsSize k }
    requires level { level ≤ 11 }
    requires x { IsViewed viewer.now.x }
    requires y { IsViewed viewer.now.y }
{
    let whole = window(k, level, viewer.x, viewer.y);
    Region {
        x0: whole.x0.saturating_add(2 * drawn(seed, 4) as i32),
        y0: whole.y0.saturating_add(2 * drawn(seed, 4) as i32),
        x1: whole.x1.saturating_sub(2 * drawn(seed, 4) as i32),
        y1: whole.y1.saturating_sub(2 * drawn(seed, 4) as i32),
    }
}

// Whether a mesh is that of the plain program.
fn is_plain(
    rt: &impl Abort,
    alloc: Global,
    made: &Mesh,
    k: u8,
    regions: &[Region],
    terrain: &Grid,
) -> Result<bool, NoMemory>
    requires size { IsSize k }
    requires levels { length regions.now ≤ 12 }
{
    assert!(rt; are_drawn(regions));
    let vertices = few_vertices(alloc, regions)?;
    assert!(rt; vertices);
    let triangles = few_triangles(alloc, regions)?;
    assert!(rt; triangles);
    let plain = mesh(alloc, terrain, k, regions)?;
    Ok(
        made.vertices() == plain.vertices()
            && made.triangles() == plain.triangles()
            && made.parts() == plain.parts(),
    )
}

// Whether the frame of a random terrain, viewer and partly filled windows is that of the plain program.
fn is_random_frame_plain(
    rt: &impl Abort,
    alloc: Global,
    seed: &mut u64,
    k: u8,
) -> Result<bool, NoMemory>
    requires size { IsSize k }
{
    let side = 1 + drawn(seed, 40);
    let terrain = random_terrain(alloc, seed, side)?;
    let viewer = Viewer {
        x: drawn(seed, 60) as i32,
        y: drawn(seed, 60) as i32,
    };
    let parts = [
        random_part(seed, k, 0, &viewer),
        random_part(seed, k, 1, &viewer),
    ];
    let actives = partly_filled(k, &viewer, &parts);
    let made = grid_mesh(alloc, k, &actives, &terrain)?;
    let regions = [actives.at(0), actives.at(1)];
    is_plain(rt, alloc, &made, k, &regions, &terrain)
}

#[test]
fn thirty_random_frames(rt: HostRuntime) -> Result<(), Fail> {
    let mut seed = 11u64;
    for _ in 0..20u32 {
        let narrow = is_random_frame_plain(&rt, rt.alloc(), &mut seed, 4)?;
        assert!(rt; narrow);
    }
    for _ in 0..10u32 {
        let wide = is_random_frame_plain(&rt, rt.alloc(), &mut seed, 5)?;
        assert!(rt; wide);
    }
    Ok(())
}

// Twelve levels at the limit of the viewer: no terrain is in sight.
#[test]
fn twelve_levels_far_off(rt: HostRuntime) -> Result<(), Fail> {
    let viewer = Viewer {
        x: -4194304,
        y: 4194304,
    };
    let mut seed = 5u64;
    let terrain = random_terrain(rt.alloc(), &mut seed, 20)?;
    let far = whole_regions(4, 12, &viewer);
    let made = grid_mesh(rt.alloc(), 4, &far, &terrain)?;
    let mut regions = [Region::empty(); 12];
    for level in 0..far.levels() {
        if let Some(region) = regions.get_mut(usize::from(level)) {
            *region = far.at(level);
        }
    }
    let same = is_plain(&rt, rt.alloc(), &made, 4, &regions, &terrain)?;
    assert!(rt; same);
    assert_eq!(rt; made.vertices().len(), 1996);
    assert!(rt; made.vertices().iter().all(|vertex| vertex.height == 0));
    Ok(())
}
