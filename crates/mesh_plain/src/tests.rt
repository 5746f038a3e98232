//! Worked examples.

use crate::{block_triangles, hole, listed_vertices, mesh_vertices, region_cells, stitches_along};
use clip_regions::Region;
use height_pyramid::Grid;
use mesh_model::Vertex;
use std::alloc::Global;
use std::test::Fail;

const FINE: Region = Region {
    x0: 4,
    y0: 4,
    x1: 8,
    y1: 8,
};

const COARSE: Region = Region {
    x0: 0,
    y0: 0,
    x1: 6,
    y1: 6,
};

#[test]
fn lists_squares_and_stitches(rt: HostRuntime) -> Result<(), Fail> {
    let vertices = vec![in rt.alloc();
        Vertex {
            x: 4,
            z: 4,
            height: 0
        },
        Vertex {
            x: 6,
            z: 4,
            height: 0
        },
        Vertex {
            x: 4,
            z: 6,
            height: 0
        },
        Vertex {
            x: 6,
            z: 6,
            height: 0
        },
    ]?;
    let square = Region {
        x0: 2,
        y0: 2,
        x1: 2,
        y1: 2,
    };
    let triangles = block_triangles(rt.alloc(), vertices.as_slice(), 1, &square)?;
    assert_eq!(rt; triangles.as_slice(), [[0u32, 2, 3], [0, 3, 1]].as_slice());
    assert_eq!(rt; region_cells(rt.alloc(), 1, &square)?.len(), 1);
    let stitches = stitches_along(rt.alloc(), &[0, 1, 2, 3, 4])?;
    assert_eq!(rt; stitches.as_slice(), [[0u32, 1, 2], [2, 3, 4]].as_slice());
    Ok(())
}

#[test]
#[tactic(auto, unfolding(clip_regions::specs::FloorDivision::floor_rem))]
fn lists_each_position_once(rt: HostRuntime) -> Result<(), Fail> {
    assert_eq!(rt;
        hole(&FINE),
        Region {
            x0: 2,
            y0: 2,
            x1: 4,
            y1: 4
        }
    );
    assert_eq!(rt; listed_vertices(rt.alloc(), &[FINE, COARSE])?.len(), 65);
    Ok(())
}

// Nine columns and nine rows of heights, most of them 0.
fn terrain(alloc: Global) -> Result<Grid, Fail> {
    let mut heights = vec![in alloc; 0i16; 81]?;
    heights[4 * 9 + 4] = 10;
    heights[6 * 9 + 4] = 13;
    heights[8 * 9 + 2] = 90;
    heights[8 * 9 + 3] = 100;
    heights[8 * 9 + 4] = 95;
    Ok(Grid::new(9, 9, heights))
}

#[test]
fn lists_vertices(rt: HostRuntime) -> Result<(), Fail> {
    let terrain = terrain(rt.alloc())?;
    let vertices = mesh_vertices(rt.alloc(), &terrain, 4, &[FINE, COARSE])?;
    assert_eq!(rt; vertices.len(), 65);
    let first = Vertex {
        x: 4,
        z: 4,
        height: 320,
    };
    assert_eq!(rt; vertices[0], first);
    Ok(())
}
