//! How a job is filled.

ghost use Rattle.std.specs.Prelude.{◌≡◌, ◌+◌, ◌*◌, ◌<◌, ◌≤◌, pos, ◌+ℤ◌, ◌-ℤ◌, ◌≤ℤ◌, length, take};
ghost use Rattle.std.specs.Int.{int_gap};
ghost use Rattle.clip_regions.specs.Regions.{columns, rows};
ghost use Rattle.terrain_model.specs.Terrain.{level_height};
ghost use Rattle.torus_grid.specs.Places.{IsInOneBlock};
ghost use Rattle.book_cells.specs.Cells.{IsPainted};
ghost use Rattle.clip_book.specs.Laws.{StandByPlaces};
ghost use Rattle.grid_fills.specs.Filling.{IsFilledTo};

use crate::levels::{height_of, lies_outside};
use clip_book::{FilledJob, Job, read_by_places_are_listed};
use clip_regions::Region;
use height_pyramid::Grid;
use plan_laws::inside_is_held;

// How many cells lie from the first to the last of at most eight on an axis.
fn span(first: i32, last: i32) -> u32
    requires order { first ≤ℤ last }
    requires short { (last -ℤ first) ≤ℤ pos 7 }
    ensures { result ≡ int_gap first (last +ℤ pos 1) }
{
    (last - first + 1) as u32
}

// Some cells of a block, with the numbers of their columns and rows.
#[derive(Clone, Copy)]
struct BlockCells {
    cells: Region,
    across: u32,
    down: u32,
    ghost columns: { across ≡ columns cells },
    ghost rows: { down ≡ rows cells },
    ghost east: { pos across ≡ cells.x1 +ℤ pos 1 -ℤ cells.x0 },
    ghost south: { pos down ≡ cells.y1 +ℤ pos 1 -ℤ cells.y0 },
    ghost some: { 0 < across },
    ghost wide: { across ≤ 8 },
    ghost high: { down ≤ 8 },
    ghost few: { across * down ≤ 64 },
}

impl BlockCells {
    // The cells of a job.
    fn of(job: &Job) -> BlockCells
        ensures { result.cells ≡ job.now.note.piece.cells }
    {
        inside_is_held();
        let _patch = job.patch();
        let cells = job.cells();
        BlockCells {
            cells,
            across: span(cells.x0, cells.x1),
            down: span(cells.y0, cells.y1),
        }
    }

    // The column of a cell of each row.
    fn column(self, n: u32) -> i32
        requires { n < self.across }
        ensures { result ≡ self.cells.x0 +ℤ pos n }
    {
        self.cells.x0 + n as i32
    }

    // A row of cells.
    fn row(self, n: u32) -> i32
        requires { n < self.down }
        ensures { result ≡ self.cells.y0 +ℤ pos n }
    {
        self.cells.y0 + n as i32
    }
}

// Writes the heights of a row of cells on a level, after those of the rows before it.
fn write_row(grid: &Grid, level: u8, cells: BlockCells, row: u32, out: &mut [i16; 64])
    requires level { level ≤ 11 }
    requires row { row < cells.down }
    requires filled { IsFilledTo (level_height grid.now level) cells.cells cells.across (row * cells.across) out.old }
    ensures { IsFilledTo (level_height grid.now level) cells.cells cells.across ((row + 1) * cells.across) out.new }
{
    let j = cells.row(row);
    let first = row * cells.across;
    for n in 0..cells.across {
        out[(first + n) as usize] = height_of(grid, level, cells.column(n), j);
    }
}

// The heights of cells on a level, row by row, and then no more.
fn heights_on(grid: &Grid, level: u8, cells: BlockCells) -> [i16; 64]
    requires { level ≤ 11 }
    ensures many { length result ≡ 64 }
    ensures heights { StandByPlaces (level_height grid.now level) cells.cells
        (take (cells.across * cells.down) result) }
{
    let mut out = [0i16; 64];
    if lies_outside(grid, level, cells.cells) {
        return out;
    }
    for row in 0..cells.down {
        write_row(grid, level, cells, row, &mut out);
    }
    out
}

/// Fills a job of a level, 0 to 11, with the heights of its terrain, which a grid has. No memory is taken.
pub fn fill_job(grid: &Grid, job: Job) -> FilledJob
    requires terrain { job.land.terrain ≡ grid.now }
    requires level { job.note.level ≤ 11 }
    ensures land { result.land ≡ job.land }
    ensures note { result.note ≡ job.note }
    ensures painted { IsPainted job.land.terrain job.note.level job.note.piece.cells job.tile result.tile }
{
    read_by_places_are_listed();
    let cells = BlockCells::of(&job);
    let heights = heights_on(grid, job.level(), cells);
    job.write(&heights[..(cells.across * cells.down) as usize])
}
