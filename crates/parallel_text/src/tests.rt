//! Texts beside those of one thread.

use crate::frame_text_beside;
use active_region::Actives;
use grid_frames::{Viewer, grid_mesh, whole_regions};
use height_pyramid::Grid;
use obj_frames::{Header, frame_text};
use std::process::Abort;
use std::test::Fail;

// A hilly terrain of 101 × 101 samples.
fn hills(rt: &HostRuntime) -> Result<Grid, Fail> {
    let mut heights = Vec::new(rt.alloc());
    for place in 0..10201u32 {
        heights.push((place % 101 * 7) as i16 - 350)?;
    }
    let mut whole = heights;
    whole.resize(10201, 0)?;
    Ok(Grid::new(101, 101, whole))
}

// The head of a frame.
fn header(actives: Actives) -> Header {
    Header {
        number: 7,
        x: 50,
        y: 50,
        actives,
    }
}

#[test]
fn large_and_small_frames(rt: HostRuntime) -> Result<(), Fail> {
    let terrain = hills(&rt)?;
    let mut text = Vec::new(rt.alloc());
    for k in 4..9u8 {
        let actives = whole_regions(k, 3, &Viewer { x: 50, y: 50 });
        let mesh = grid_mesh(rt.alloc(), k, &actives, &terrain)?;
        let plain = frame_text(rt.alloc(), &mesh, &header(actives))?;
        text = frame_text_beside(&rt, rt.alloc(), text, &mesh, &header(actives))?;
        assert!(rt; text == plain);
    }
    Ok(())
}
