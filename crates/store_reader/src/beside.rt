//! The blocks of a level, read side by side.

ghost use Rattle.std.specs.Prelude.{◌≡◌, ◌+◌, ◌<◌, ◌≤◌, length, IfSome};
ghost use Rattle.std.specs.Thread.{IsSync};
ghost use Rattle.store_model.specs.Sizes.{cells_on, blocks_on};
ghost use Rattle.store_reader.specs.Reading.{IsReading, IsBand, MayRead, AreHalves, behind, EndsBand};

use crate::blocks::content_at;
use crate::level::{Band, BlockReader, Reading, read_band};
use crate::sizes::{blocks_above, cells_above};
use std::thread::{Threads, available_parallelism, join_mut};
use store_model::StoreFault;

// Fewer blocks than these are read by one thread: it takes a millisecond or two, and the threads' start as long as some
// hundred blocks.
const FEW: u32 = 2048;

// Reads blocks in as many parts, side by side, as pay on this machine.
#[derive(Drop)]
pub(crate) struct SideBySide<'a, R> {
    rt: &'a R,
    // How often a level's rows of blocks are halved.
    depth: u8,
}

impl<'a, R: Threads> SideBySide<'a, R> {
    // For about twice as many parts as there are processors.
    pub(crate) fn new(rt: &'a R) -> SideBySide<'a, R> {
        let depth = match available_parallelism(rt) {
            Ok(count) => match count.get() {
                1 => 0,
                2 | 3 => 2,
                4..=7 => 3,
                _ => 4,
            },
            Err(_) => 0,
        };
        SideBySide { rt, depth }
    }
}

// The offset behind so many blocks, the length of the first of which stands at an offset. None where one is cut short.
fn behind(bytes: &[u8], start: usize, count: u32) -> Option<usize>
    requires { start ≤ length bytes.now }
    ensures inside { IfSome result (λ end. end ≤ length bytes.now) }
    ensures place { IfSome result (λ end. end ≡ behind bytes.now start count) }
{
    let mut at = start;
    for _ in 0..count {
        let content = content_at(bytes, at)?;
        at += 2 + content.len();
    }
    Some(at)
}

// The halves of a band of some rows, unless a block of the first one is cut short.
fn halves(reading: Reading<'_>, band: Band) -> Option<(Band, Band)>
    requires reading { IsReading reading.header reading.level reading.source }
    requires some { band.from + 2 ≤ band.to }
    requires down { band.to ≤ blocks_on (cells_on reading.header.height reading.level) }
    requires begun { band.start ≤ length reading.bytes.now }
    ensures { IfSome result (λ h. AreHalves reading.entry band h.0 h.1) }
{
    let middle = band.from + (band.to - band.from) / 2;
    let count = blocks_above(reading.header, reading.level, middle)
        - blocks_above(reading.header, reading.level, band.from);
    let start = behind(reading.bytes, band.start, count)?;
    Some((
        Band { to: middle, ..band },
        Band {
            from: middle,
            to: band.to,
            start,
        },
    ))
}

// Reads the blocks of a band into a table of its cells, halved so often, the halves side by side. Gives the offset
// behind the last one.
fn read_parts<R: Threads + Sync>(
    rt: &R,
    depth: u8,
    reading: Reading<'_>,
    band: Band,
    table: &mut [i16],
) -> Result<usize, StoreFault>
    requires reading { IsReading reading.header reading.level reading.source }
    requires band { IsBand reading band (length table.old) }
    ensures { EndsBand reading.entry band result table.new }
{
    if depth == 0 || band.to - band.from < 2 {
        return read_band(reading, band, table);
    }
    let Some((front, back)) = halves(reading, band) else {
        return read_band(reading, band, table);
    };
    let cells = cells_above(reading.header, reading.level, front.to)
        - cells_above(reading.header, reading.level, front.from);
    let (north, south) = table.split_at_mut(cells);
    let (first, second) = join_mut(
        rt,
        &mut || -> Result<usize, StoreFault>
            requires { IsSync R.row × (0 < depth) × MayRead reading front (length north.now) }
            ensures { EndsBand reading.entry front result north.exit.now }
        { read_parts(rt, depth - 1, reading, front, north) },
        &mut || -> Result<usize, StoreFault>
            requires { IsSync R.row × (0 < depth) × MayRead reading back (length south.now) }
            ensures { EndsBand reading.entry back result south.exit.now }
        { read_parts(rt, depth - 1, reading, back, south) },
    );
    first?;
    second
}

impl<R: Threads + Sync> BlockReader for SideBySide<'_, R> {
    ghost ready = { λ _. IsSync R.row };

    fn read(
        &self,
        reading: Reading<'_>,
        band: Band,
        table: &mut [i16],
    ) -> Result<usize, StoreFault> {
        let count = blocks_above(reading.header, reading.level, band.to)
            - blocks_above(reading.header, reading.level, band.from);
        let depth = if count < FEW { 0 } else { self.depth };
        read_parts(self.rt, depth, reading, band, table)
    }
}
