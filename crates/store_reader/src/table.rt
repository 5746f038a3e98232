//! The table of a level, and spans of it.

ghost use Rattle.std.specs.Prelude.{◌≡◌, ◌+◌, ◌*◌, ◌<◌, ◌≤◌, ◌^◌, length, pos, ◌≤ℤ◌};
ghost use Rattle.store_reader.specs.Places.{IsSoundPlace};
ghost use Rattle.store_reader.specs.Tables.{IsRowIn, IsKeptBeside, AreRowsIn, IsKeptOutside, IsSpanOf, behind_cells};

use crate::sizes::Place;

// Columns and rows of a table.
#[derive(Clone, Copy)]
pub(crate) struct Span {
    pub(crate) x0: usize,
    pub(crate) y0: usize,
    pub(crate) width: usize,
    pub(crate) rows: usize,
}

// The columns and rows of a block's cells.
#[tactic(auto, unfolding(clip_regions::specs::Regions::columns, clip_regions::specs::Regions::rows))]
pub(crate) fn span_of(place: Place) -> Span
    requires { IsSoundPlace place }
    ensures span { IsSpanOf place.cells result }
    ensures few_columns { result.width ≤ 8 }
    ensures few_rows { result.rows ≤ 8 }
{
    let cells = place.cells;
    Span {
        x0: cells.x0 as usize,
        y0: cells.y0 as usize,
        width: (cells.x1 - cells.x0 + 1) as usize,
        rows: (cells.y1 - cells.y0 + 1) as usize,
    }
}

// Puts `count` heights, from one place on, into a table, from another place on.
fn put_row(table: &mut [i16], at: usize, heights: &[i16], from: usize, count: usize)
    requires table { at + count ≤ length table.old }
    requires heights { from + count ≤ length heights.now }
    ensures row { IsRowIn count heights.now from at table.new }
    ensures kept { IsKeptBeside count at table.old table.new }
{
    // Most rows have eight heights, which are copied at once.
    if count == 8 {
        table[at..at + 8].copy_from_slice(&heights[from..from + 8]);
        return;
    }
    table[at..at + count].copy_from_slice(&heights[from..from + count]);
}

// Puts heights, row by row, into a span of a table with so many columns.
fn put_rows(table: &mut [i16], columns: usize, span: Span, heights: &[i16])
    requires columns { span.x0 + span.width ≤ columns }
    requires rows { (span.y0 + span.rows) * columns ≤ length table.old }
    requires few { length table.old ≤ 2 ^ 26 }
    requires near { span.y0 + span.rows ≤ 2 ^ 26 }

    // There is a height for each place of the span.
    requires heights { length heights.now ≡ span.width * span.rows }
    requires few_columns { span.width ≤ 8 }
    requires few_rows { span.rows ≤ 8 }

    // The span has them, and all else is as it was.
    ensures rows { AreRowsIn span.rows columns span heights.now table.new }
    ensures kept { IsKeptOutside span.rows columns span table.old table.new }
{
    for b in 0..span.rows {
        let at = (span.y0 + b) * columns + span.x0;
        put_row(table, at, heights, b * span.width, span.width);
    }
}

// Puts heights, row by row, into a span of a table whose first `top` rows are left out.
pub(crate) fn put_block(table: &mut [i16], columns: usize, top: usize, span: Span, heights: &[i16])
    requires columns { span.x0 + span.width ≤ columns }
    requires top { top ≤ span.y0 }
    requires rows { (span.y0 + span.rows) * columns ≤ top * columns + length table.old }
    requires few { length table.old ≤ 2 ^ 26 }
    requires near { span.y0 + span.rows ≤ 2 ^ 26 }

    // There is a height for each place of the span.
    requires heights { length heights.now ≡ span.width * span.rows }
    requires few_columns { span.width ≤ 8 }
    requires few_rows { span.rows ≤ 8 }

    // The span has them, and all else is as it was.
    ensures rows { AreRowsIn span.rows columns span heights.now (behind_cells (top * columns) table.new) }
    ensures kept { IsKeptOutside span.rows columns span
        (behind_cells (top * columns) table.old) (behind_cells (top * columns) table.new) }
{
    let below = Span {
        y0: span.y0 - top,
        ..span
    };
    put_rows(table, columns, below, heights);
}
