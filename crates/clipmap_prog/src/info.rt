//! The command `info`.
ghost use Rattle.std.specs.Prelude.{◌≡◌, ◌∷◌, [], ◌⊎◌, IfOk, string_bytes};
ghost use Rattle.outer_shelf.specs.Outside.{ShelfTold};
ghost use Rattle.terrain_lines.specs.Lines.{heights_line, terrain_line};
ghost use Rattle.clipmap_words.specs.Info.{IsInfoInRange, info_view};
ghost use Rattle.run_actions.specs.Actions.{Write};
ghost use Rattle.clipmap_prog.specs.Info.{info_actions, info_outcome, source_line};
ghost use Rattle.clipmap_prog.specs.Promise.{Runs};
ghost use Rattle.run_actions.specs.Runs.{HadReason, Ran, leaves_nothing};
ghost use Rattle.clipmap_prog.specs.Sources.{source_view, terrain_of};
ghost use Rattle.clipmap_prog.specs.Stores.{ByVerdict};

use crate::output::{ended, write_fault};
use crate::reading::Stop;
use crate::sources::{Source, read_sources};
use clipmap_words::InfoWords;
use outer_shelf::{Shelf, Sink};
use run_actions::{Halt, write};
use std::alloc::{AllocError, Global};
use std::thread::Threads;
use terrain_lines::{heights_line, store_line, terrain_line, tiles_line};

// The three lines of an `info`.
#[derive(Drop)]
struct Lines {
    terrain: String,
    heights: String,
    source: String,
}

// The line that tells where a terrain comes from.
fn source_line(alloc: Global, source: &Source) -> Result<String, AllocError>
    ensures line { IfOk result (λ line. string_bytes line ≡ source_line (source_view source.now)) }
{
    match source {
        Source::Tiles(tiles) => tiles_line(alloc, tiles.number, tiles.side, tiles.voids),
        Source::Store(file) => store_line(alloc, file.header, file.length),
    }
}

// The lines that tell of inputs.
fn lines_of(alloc: Global, source: &Source) -> Result<Lines, AllocError>
    ensures terrain { IfOk result (λ lines.
        string_bytes lines.terrain ≡ terrain_line (terrain_of (source_view source.now))) }
    ensures heights { IfOk result (λ lines.
        string_bytes lines.heights ≡ heights_line (terrain_of (source_view source.now))) }
    ensures source { IfOk result (λ lines. string_bytes lines.source ≡ source_line (source_view source.now)) }
{
    let terrain = terrain_line(alloc, source.grid())?;
    let heights = heights_line(alloc, source.grid())?;
    let source = source_line(alloc, source)?;
    Ok(Lines {
        terrain,
        heights,
        source,
    })
}

// Writes two lines, one after the other.
fn write_two<K: Sink>(out: &mut K, first: &str, second: &str) -> Result<(), Halt>
    ensures ran { (shelf : ShelfTold) → Ran leaves_nothing 0 (Write first.now ∷ Write second.now ∷ []) result
        shelf shelf (K.told out.old) (K.told out.new) }
    ensures reason { (shelf : ShelfTold) → HadReason result shelf shelf (K.told out.old) (K.told out.new) }
{
    write(out, first.as_bytes())?;
    write(out, second.as_bytes())
}

// Writes three lines, one after the other.
fn write_lines<K: Sink>(out: &mut K, lines: &Lines) -> Result<(), Halt>
    ensures ran { (shelf : ShelfTold) → Ran leaves_nothing 0
        (Write (string_bytes lines.now.terrain) ∷ Write (string_bytes lines.now.heights)
        ∷ Write (string_bytes lines.now.source) ∷ []) result shelf shelf (K.told out.old) (K.told out.new) }
    ensures reason { (shelf : ShelfTold) → HadReason result shelf shelf (K.told out.old) (K.told out.new) }
{
    write(out, lines.terrain.as_bytes())?;
    write_two(out, lines.heights.as_str(), lines.source.as_str())
}

// Tells of inputs.
fn tell<K: Sink>(alloc: Global, source: &Source, out: &mut K) -> Result<(), Halt>
    ensures ran { (shelf : ShelfTold) → Ran leaves_nothing 0 (info_actions (source_view source.now)) result
        shelf shelf (K.told out.old) (K.told out.new) }
    ensures reason { (shelf : ShelfTold) → HadReason result shelf shelf (K.told out.old) (K.told out.new) }
{
    match lines_of(alloc, source) {
        Ok(lines) => write_lines(out, &lines),
        Err(_) => Err(Halt::NoMemory),
    }
}

// Runs an `info`. `Ok` is the status: 0 where it is done, and 2 where it is refused and the line of its
// fault is written.
pub(crate) fn run_info<R: Threads + Sync, S: Shelf, K: Sink>(
    rt: &R,
    alloc: Global,
    info: &InfoWords<'_>,
    shelf: &mut S,
    out: &mut K,
) -> Result<u8, Halt>
    requires in_range { IsInfoInRange (info_view info.now) }
    ensures runs { ByVerdict (info_view info.now).inputs (S.told shelf.old).files
        (λ verdict. Runs S.leaves (info_outcome verdict (info_view info.now)) result
        (S.told shelf.old) (S.told shelf.new) (K.told out.old) (K.told out.new)) }
    ensures status { IfOk result (λ status. (status ≡ 0) ⊎ (status ≡ 2)) }
    ensures reason { HadReason result (S.told shelf.old) (S.told shelf.new) (K.told out.old) (K.told out.new) }
{
    match read_sources(rt, alloc, shelf, info.inputs) {
        Ok(source) => ended(0, tell(alloc, &source, out)),
        Err(Stop::Refused(fault)) => ended(2, write_fault(alloc, out, fault)),
        Err(Stop::Halted(halt)) => Err(halt),
    }
}
