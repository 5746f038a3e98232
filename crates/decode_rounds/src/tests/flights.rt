//! Flights in rounds, whose frames are those over the grid.

ghost use Rattle.std.specs.Prelude.{◌<◌, ◌≤◌};
ghost use Rattle.plan_model.specs.Limits.{IsSize};

use crate::tests::desk::Desk;
use crate::{Done, Quiet};
use grid_frames::grid_mesh;
use height_pyramid::Grid;
use obj_frames::Mesh;
use std::alloc::Global;
use std::process::Abort;
use std::test::Fail;
use std::thread::Threads;

// Whether two meshes have the same lists.
fn are_same(one: &Mesh, other: &Mesh) -> bool {
    one.vertices() == other.vertices()
        && one.triangles() == other.triangles()
        && one.parts() == other.parts()
}

// A hilly terrain of 60 x 60 samples.
fn hills(alloc: Global) -> Result<Grid, Fail> {
    let mut heights = Vec::new(alloc);
    for place in 0..3600i32 {
        heights.push((place % 60 * 37 % 101 - place / 60 * 53 % 89) as i16)?;
    }
    heights.resize(3600, 0)?;
    Ok(Grid::new(60, 60, heights))
}

// One round with a frame and one without. How many jobs were filled in them, and the frame's number of vertices.
fn two_rounds<R: Threads + Sync + Abort>(
    rt: &R,
    alloc: Global,
    desk: &mut Desk,
    grid: &Grid,
    k: u8,
    most: u8,
) -> Result<(usize, usize, usize), Fail>
    requires size { IsSize k }
    requires passes { most ≤ 15 }
{
    let actives = desk.begin(rt)?;
    let jobs = desk.jobs(alloc, most)?;
    let beside = jobs.len();
    let all = desk.drawn(rt, alloc, jobs, &Quiet)?;
    let Some(mesh) = desk.give_back(rt, all) else {
        return Err("no mesh".into());
    };
    desk.end();
    let whole = grid_mesh(alloc, k, &actives, grid)?;
    assert!(rt; are_same(&mesh, &whole));
    let jobs = desk.jobs(alloc, most)?;
    let alone = jobs.len();
    let all = desk.filled(rt, alloc, jobs, &Quiet)?;
    assert!(rt; desk.give_back(rt, all).is_none());
    desk.end();
    Ok((beside, alone, whole.vertices().len()))
}

// A flight by so many passes: how many jobs were filled, the most that were beside a draw, and the vertices of the
// last frame.
fn flight<R: Threads + Sync + Abort>(
    rt: &R,
    alloc: Global,
    k: u8,
    most: u8,
) -> Result<(usize, usize, usize), Fail>
    requires size { IsSize k }
    requires passes { most ≤ 15 }
{
    let grid = hills(alloc)?;
    let mut desk = Desk::new(alloc, &grid, 3, k, 30)?;
    let mut filled = 0usize;
    let mut beside = 0usize;
    let mut vertices = 0usize;
    for _ in 0..400u32 {
        let (with, without, seen) = two_rounds(rt, alloc, &mut desk, &grid, k, most)?;
        filled = filled.saturating_add(with).saturating_add(without);
        beside = beside.max(with);
        vertices = seen;
        if with == 0 && without == 0 {
            break;
        }
    }
    Ok((filled, beside, vertices))
}

// However many passes work, as many jobs are filled, and the last frame is the same.
#[test]
fn flights_by_one_two_nine_and_fifteen_passes(rt: HostRuntime) -> Result<(), Fail> {
    let alloc = rt.alloc();
    let (filled, beside, vertices) = flight(&rt, alloc, 5, 1)?;
    assert_eq!(rt; beside, 1);
    for most in [2u8, 9, 15] {
        let (jobs, together, seen) = flight(&rt, alloc, 5, most)?;
        assert_eq!(rt; jobs, filled);
        assert_eq!(rt; together, usize::from(most));
        assert_eq!(rt; seen, vertices);
    }
    Ok(())
}

// So many fills that they are more than one part come in their order.
#[test]
fn three_hundred_fills(rt: HostRuntime) -> Result<(), Fail> {
    let alloc = rt.alloc();
    let desk = Desk::new(alloc, &hills(alloc)?, 1, 5, 0)?;
    let all = desk.of_books(&rt, alloc, 20, &Quiet)?;
    assert_eq!(rt; all.len(), 300);
    for (place, done) in all.iter().enumerate() {
        match done {
            Done::Filled { pass, .. } => assert_eq!(rt; usize::from(*pass), place % 15),
            Done::Drawn { .. } => return Err("a frame".into()),
        }
    }
    Ok(())
}
