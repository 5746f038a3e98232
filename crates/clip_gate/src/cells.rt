//! The cells of a region by their places, row by row.

ghost use Rattle.std.specs.Prelude.{◌≡◌, ◌^◌, ◌<◌, ◌*◌, ◌%◌, ◌/◌, pos, ◌+ℤ◌};
ghost use Rattle.clip_regions.specs.Regions.{columns, rows, columns as columns_of, rows as rows_of, IsWithin};
ghost use Rattle.plan_holds.specs.Apart.{HasCell};

use clip_regions::Region;

// How many columns a region has.
pub(crate) fn columns(region: Region) -> u32
    requires { IsWithin (2 ^ 24) region }
    ensures value { result ≡ columns region }
    ensures few { result < 2 ^ 26 }
{
    if region.x1 < region.x0 {
        0
    } else {
        (region.x1 - region.x0) as u32 + 1
    }
}

// How many rows a region has.
pub(crate) fn rows(region: Region) -> u32
    requires { IsWithin (2 ^ 24) region }
    ensures value { result ≡ rows region }
    ensures few { result < 2 ^ 26 }
{
    if region.y1 < region.y0 {
        0
    } else {
        (region.y1 - region.y0) as u32 + 1
    }
}

// A cell of a level.
#[derive(Clone, Copy)]
pub(crate) struct Cell {
    pub(crate) i: i32,
    pub(crate) j: i32,
}

// The cell of a region in column `u` and row `v`, counted from its corner.
pub(crate) fn cell_in(region: Region, u: u32, v: u32) -> Cell
    requires near { IsWithin (2 ^ 24) region }
    requires column { u < 2 ^ 26 }
    requires row { v < 2 ^ 26 }
    ensures column { result.i ≡ region.x0 +ℤ pos u }
    ensures row { result.j ≡ region.y0 +ℤ pos v }
{
    Cell {
        i: region.x0 + u as i32,
        j: region.y0 + v as i32,
    }
}

// The cell at a place of a region of so many columns and rows.
pub(crate) fn cell_at(region: Region, columns: u32, rows: u32, place: u64) -> Cell
    requires near { IsWithin (2 ^ 24) region }
    requires columns { columns ≡ columns_of region }
    requires rows { rows ≡ rows_of region }

    // They are few, and the place is one of the region.
    requires few_columns { columns < 2 ^ 26 }
    requires few_rows { rows < 2 ^ 26 }
    requires inside { place < columns * rows }

    // The cell is the one there, row by row.
    ensures column { result.i ≡ region.x0 +ℤ pos (place % columns) }
    ensures row { result.j ≡ region.y0 +ℤ pos (place / columns) }
    ensures inside { HasCell region result.i result.j }
{
    let columns = u64::from(columns);
    cell_in(region, (place % columns) as u32, (place / columns) as u32)
}
