//! The heights of frames beside the level heights of the terrain.

ghost use Rattle.std.specs.Prelude.{◌<◌, ◌≤◌};

use crate::levels::height_of;
use clip_book::Book;
use clip_regions::Region;
use height_pyramid::Grid;
use std::process::Abort;

// One cell of the frame of a pass.
fn look_at(rt: &impl Abort, grid: &Grid, book: &Book, pass: u8, level: u8, i: i32, j: i32)
    requires pass { pass < 16 }
    requires level { level ≤ 11 }
{
    let Some(frame) = book.frame_of(pass) else {
        panic!(rt; "no frame");
    };
    assert!(rt; level < frame.actives.levels());
    assert!(rt; frame.actives.at(level).contains(i, j));
    assert_eq!(rt;
        book.height(pass, level, i, j),
        height_of(grid, level, i, j)
    );
}

// Whether a cell is looked at: all those at the region's border, and some inside.
fn is_looked_at(region: Region, i: i32, j: i32) -> bool {
    let border = i == region.x0 || i == region.x1 || j == region.y0 || j == region.y1;
    border || (i & 7 == 0 && j & 7 == 0) || (i & 7 == 7 && j & 7 == 7)
}

// One row of a level.
fn look_along(
    rt: &impl Abort,
    grid: &Grid,
    book: &Book,
    pass: u8,
    level: u8,
    region: Region,
    j: i32,
)
    requires pass { pass < 16 }
    requires level { level ≤ 11 }
{
    for i in region.x0..=region.x1 {
        if is_looked_at(region, i, j) {
            look_at(rt, grid, book, pass, level, i, j);
        }
    }
}

// One level.
fn look_on(rt: &impl Abort, grid: &Grid, book: &Book, pass: u8, level: u8, region: Region)
    requires pass { pass < 16 }
    requires level { level ≤ 11 }
{
    for j in region.y0..=region.y1 {
        look_along(rt, grid, book, pass, level, region, j);
    }
}

/// The frame of a pass, if it has one.
pub fn look(rt: &impl Abort, grid: &Grid, book: &Book, pass: u8)
    requires { pass < 16 }
{
    let Some(frame) = book.frame_of(pass) else {
        return;
    };
    let actives = frame.actives;
    for level in 0..actives.levels() {
        assert!(rt; level < 12 && level < actives.levels());
        look_on(rt, grid, book, pass, level, actives.at(level));
    }
}
