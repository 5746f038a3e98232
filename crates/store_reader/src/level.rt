//! One level: all of its blocks, in a table of its cells.

ghost use Rattle.std.specs.Prelude.{◌≡◌, ◌⊎◌, ◌+◌, ◌<◌, ◌≤◌, ◌^◌, length, IfOk, IfErr, ⊤};
ghost use Rattle.store_model.specs.declared.fault.StoreFault.TheVariants.{NoMemory};
ghost use Rattle.store_reader.specs.Reading.{IsReading, IsBand, IsWhole, cell_count, blocks_in, row_in, blocks_above, cells_above, ReadsBlock, FailsAt, ReadsBand, FailsBand, FailsFrom, ReadsLevel};

use crate::blocks::{Source, content_at, decode};
use crate::header::Header;
use crate::sizes::{blocks_above, blocks_on, cell_total, cells_on, place_of};
use crate::table::{put_block, span_of};
use height_pyramid::Grid;
use std::alloc::Global;
use store_model::StoreFault;

// A level that was read, and where its blocks end in the bytes.
#[derive(Drop)]
pub(crate) struct Reached {
    pub(crate) grid: Grid,
    pub(crate) at: usize,
}

// A level of a store that is being read.
#[derive(Clone, Copy)]
pub(crate) struct Reading<'a> {
    pub(crate) bytes: &'a [u8],
    pub(crate) header: Header,
    pub(crate) level: u8,
    pub(crate) source: Source<'a>,
}

// Rows of a level's blocks, from one up to another, and where the length of the first of these blocks stands.
#[derive(Clone, Copy)]
pub(crate) struct Band {
    pub(crate) from: u32,
    pub(crate) to: u32,
    pub(crate) start: usize,
}

// Reads block `k`, whose length stands at an offset, into a table of the cells from a row of blocks on. Gives the
// offset behind it.
fn read_block(
    reading: Reading<'_>,
    row: u32,
    at: usize,
    k: u32,
    table: &mut [i16],
) -> Result<usize, StoreFault>
    requires reading { IsReading reading.header reading.level reading.source }
    requires start { at ≤ length reading.bytes.now }
    requires block { k < blocks_in reading }
    requires row { row ≤ row_in reading k }

    // The table has the block's cells.
    requires few { length table.old ≤ 2 ^ 26 }
    requires table { cells_above reading (row_in reading k + 1) ≤ cells_above reading row + length table.old }
    ensures read { IfOk result (λ next. ReadsBlock reading.entry row k at next table.old table.new) }
    ensures fault { IfErr result (λ fault. FailsAt reading.entry k at fault) }
{
    let Some(content) = content_at(reading.bytes, at) else {
        return Err(StoreFault::CutShort {
            offset: reading.bytes.len() as u64,
        });
    };
    let place = place_of(reading.header, reading.level, k);
    let mut heights = [0i16; 64];
    let span = span_of(place);
    let out = &mut heights[..span.width * span.rows];
    decode(place, reading.header.step, reading.source, content, out)?;
    let columns = cells_on(reading.header.width, reading.level);
    put_block(table, columns as usize, 8 * row as usize, span, out);
    Ok(at + 2 + content.len())
}

// Reads the blocks of a band, one after another, into a table of its cells. Gives the offset behind the last one.
pub(crate) fn read_band(
    reading: Reading<'_>,
    band: Band,
    table: &mut [i16],
) -> Result<usize, StoreFault>
    requires reading { IsReading reading.header reading.level reading.source }
    requires band { IsBand reading band (length table.old) }
    ensures read { IfOk result (λ end. ReadsBand reading.entry band end table.new) }
    ensures fault { IfErr result (λ fault. FailsBand reading.entry band fault) }
{
    let first = blocks_above(reading.header, reading.level, band.from);
    let end = blocks_above(reading.header, reading.level, band.to);
    let mut at = band.start;
    for k in first..end {
        at = read_block(reading, band.from, at, k, table)?;
    }
    Ok(at)
}

// How the blocks of a level are read: by one thread, or side by side.
pub(crate) trait BlockReader {
    // Holds of one that can read.
    ghost ready: { Self → Type 0 } = { λ _. ⊤ };

    // Reads the blocks of a band into a table of its cells. Gives the offset behind the last one.
    fn read(&self, reading: Reading<'_>, band: Band, table: &mut [i16]) -> Result<usize, StoreFault>
        requires ready { ready self.now }
        requires reading { IsReading reading.header reading.level reading.source }
        requires band { IsBand reading band (length table.old) }
        ensures read { IfOk result (λ end. ReadsBand reading.entry band end table.new) }
        ensures fault { IfErr result (λ fault. FailsBand reading.entry band fault) };
}

// Reads block after block.
#[derive(Drop)]
pub(crate) struct OneByOne;

impl BlockReader for OneByOne {
    fn read(
        &self,
        reading: Reading<'_>,
        band: Band,
        table: &mut [i16],
    ) -> Result<usize, StoreFault> {
        read_band(reading, band, table)
    }
}

// The whole of a level, whose first block's length stands at an offset.
fn whole_level(reading: Reading<'_>, start: usize) -> Band
    requires reading { IsReading reading.header reading.level reading.source }
    requires start { start ≤ length reading.bytes.now }
    ensures { IsWhole reading.entry result start }
{
    Band {
        from: 0,
        to: blocks_on(cells_on(reading.header.height, reading.level)),
        start,
    }
}

// Reads the level whose first block's length stands at an offset.
pub(crate) fn read_level<B: BlockReader>(
    by: &B,
    alloc: Global,
    reading: Reading<'_>,
    start: usize,
) -> Result<Reached, StoreFault>
    requires ready { B.ready by.now }
    requires reading { IsReading reading.header reading.level reading.source }
    requires start { start ≤ length reading.bytes.now }
    ensures read { IfOk result (λ reached. ReadsLevel reading.entry start reached.at reached.grid) }
    ensures fault { IfErr result (λ fault. (fault ≡ NoMemory) ⊎ FailsFrom reading.entry start fault) }
{
    let columns = cells_on(reading.header.width, reading.level);
    let rows = cells_on(reading.header.height, reading.level);
    let Ok(mut table) = vec![in alloc; 0i16; cell_total(reading.header, reading.level)] else {
        return Err(StoreFault::NoMemory);
    };
    let band = whole_level(reading, start);
    let end = by.read(reading, band, table.as_mut_slice())?;
    Ok(Reached {
        grid: Grid::new(columns, rows, table),
        at: end,
    })
}
