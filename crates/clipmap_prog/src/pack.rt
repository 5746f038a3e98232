//! The commands `pack` and `packq`.
ghost use Rattle.std.specs.Prelude.{◌≡◌, ◌≤◌, ◌∷◌, [], ◌⊎◌, IfOk, string_bytes};
ghost use Rattle.four_point.specs.Steps.{IsStep};
ghost use Rattle.clipmap_words.specs.Pack.{IsPackInRange, pack_view};
ghost use Rattle.clipmap_words.specs.PackBy.{IsPackByInRange, pack_by_view};
ghost use Rattle.run_actions.specs.Actions.{Put, Write};
ghost use Rattle.clipmap_prog.specs.Pack.{pack_by_outcome, pack_outcome, store_actions};
ghost use Rattle.clipmap_prog.specs.Promise.{Runs};
ghost use Rattle.run_actions.specs.Runs.{HadReason, Ran};
ghost use Rattle.clipmap_prog.specs.Stores.{ByVerdict};

use crate::output::{ended, write_fault};
use crate::reading::Stop;
use crate::sources::read_sources;
use crate::tile_files::read_tiles;
use clipmap_words::{PackByWords, PackWords};
use height_pyramid::Grid;
use outer_shelf::{Shelf, Sink};
use run_actions::{Halt, put, write};
use std::alloc::Global;
use std::thread::Threads;
use store_writer::{canonical_bytes, canonical_bytes_by};
use terrain_lines::packed_line;

// Puts the bytes of a store and then writes its line.
fn write_store<S: Shelf, K: Sink>(
    shelf: &mut S,
    out: &mut K,
    name: &str,
    bytes: &[u8],
    line: &str,
) -> Result<(), Halt>
    ensures ran { Ran S.leaves 0 (Put name.now bytes.now ∷ Write line.now ∷ []) result
        (S.told shelf.old) (S.told shelf.new) (K.told out.old) (K.told out.new) }
    ensures reason { HadReason result (S.told shelf.old) (S.told shelf.new) (K.told out.old) (K.told out.new) }
{
    put(shelf, name, bytes)?;
    write(out, line.as_bytes())
}

// Puts a grid's exact store of so many levels under a name, and then writes its line.
fn pack<S: Shelf, K: Sink>(
    alloc: Global,
    grid: &Grid,
    levels: u8,
    name: &str,
    shelf: &mut S,
    out: &mut K,
) -> Result<(), Halt>
    requires some { 1 ≤ levels }
    requires few { levels ≤ 12 }
    ensures ran { Ran S.leaves 0 (store_actions name.now 1 levels 1 grid.now) result
        (S.told shelf.old) (S.told shelf.new) (K.told out.old) (K.told out.new) }
    ensures reason { HadReason result (S.told shelf.old) (S.told shelf.new) (K.told out.old) (K.told out.new) }
{
    let Ok(bytes) = canonical_bytes(alloc, grid, levels) else {
        return Err(Halt::NoMemory);
    };
    let Ok(line) = packed_line(alloc, grid, levels, bytes.len()) else {
        return Err(Halt::NoMemory);
    };
    write_store(shelf, out, name, bytes.as_slice(), line.as_str())
}

// The same of its store by a step.
fn pack_by<S: Shelf, K: Sink>(
    alloc: Global,
    grid: &Grid,
    levels: u8,
    step: u8,
    name: &str,
    shelf: &mut S,
    out: &mut K,
) -> Result<(), Halt>
    requires some { 1 ≤ levels }
    requires few { levels ≤ 12 }
    requires step { IsStep step }
    ensures ran { Ran S.leaves 0 (store_actions name.now 2 levels step grid.now) result
        (S.told shelf.old) (S.told shelf.new) (K.told out.old) (K.told out.new) }
    ensures reason { HadReason result (S.told shelf.old) (S.told shelf.new) (K.told out.old) (K.told out.new) }
{
    let Ok(bytes) = canonical_bytes_by(alloc, grid, levels, step) else {
        return Err(Halt::NoMemory);
    };
    let Ok(line) = packed_line(alloc, grid, levels, bytes.len()) else {
        return Err(Halt::NoMemory);
    };
    write_store(shelf, out, name, bytes.as_slice(), line.as_str())
}

// Runs a `pack`. `Ok` is the status: 0 where it is done, and 2 where it is refused and the line of its
// fault is written.
pub(crate) fn run_pack<S: Shelf, K: Sink>(
    alloc: Global,
    words: &PackWords<'_>,
    shelf: &mut S,
    out: &mut K,
) -> Result<u8, Halt>
    requires in_range { IsPackInRange (pack_view words.now) }
    ensures runs { Runs S.leaves (pack_outcome (pack_view words.now)) result
        (S.told shelf.old) (S.told shelf.new) (K.told out.old) (K.told out.new) }
    ensures status { IfOk result (λ status. (status ≡ 0) ⊎ (status ≡ 2)) }
    ensures reason { HadReason result (S.told shelf.old) (S.told shelf.new) (K.told out.old) (K.told out.new) }
{
    match read_tiles(alloc, shelf, words.inputs) {
        Ok(tiles) => ended(
            0,
            pack(alloc, &tiles.grid, words.levels, words.out, shelf, out),
        ),
        Err(Stop::Refused(fault)) => ended(2, write_fault(alloc, out, fault)),
        Err(Stop::Halted(halt)) => Err(halt),
    }
}

// Runs a `packq`. `Ok` is the status: 0 where it is done, and 2 where it is refused and the line of its
// fault is written.
pub(crate) fn run_pack_by<R: Threads + Sync, S: Shelf, K: Sink>(
    rt: &R,
    alloc: Global,
    words: &PackByWords<'_>,
    shelf: &mut S,
    out: &mut K,
) -> Result<u8, Halt>
    requires in_range { IsPackByInRange (pack_by_view words.now) }
    ensures runs { ByVerdict (pack_by_view words.now).inputs (S.told shelf.old).files
        (λ verdict. Runs S.leaves (pack_by_outcome verdict (pack_by_view words.now)) result
        (S.told shelf.old) (S.told shelf.new) (K.told out.old) (K.told out.new)) }
    ensures status { IfOk result (λ status. (status ≡ 0) ⊎ (status ≡ 2)) }
    ensures reason { HadReason result (S.told shelf.old) (S.told shelf.new) (K.told out.old) (K.told out.new) }
{
    match read_sources(rt, alloc, shelf, words.inputs) {
        Ok(source) => {
            let PackByWords {
                levels,
                step,
                out: name,
                ..
            } = *words;
            ended(
                0,
                pack_by(alloc, source.grid(), levels, step, name, shelf, out),
            )
        }
        Err(Stop::Refused(fault)) => ended(2, write_fault(alloc, out, fault)),
        Err(Stop::Halted(halt)) => Err(halt),
    }
}
