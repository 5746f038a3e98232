//! Journals played as scripts, on one thread.

ghost use Rattle.std.specs.Prelude.{◌≡◌, IfSome};
ghost use Rattle.clip_script.specs.Scripts.{play_view};
ghost use Rattle.clip_runs.specs.Courses.{IsPlayInRange};

use crate::frames::Printed;
use crate::settings::{Size, Wrong};
use clip_gate::Entry;
use clip_runs::{Course, run_course};
use clip_script::{PlayScript, read_play, write_step};
use outer_shelf::{MemoryShelf, MemorySink};
use std::alloc::Global;
use std::thread::Threads;
use terrain_store::Store;

// The text of a script with the events of a journal.
fn text_of(alloc: Global, size: Size, entries: &[Entry]) -> Option<Vec<u8>> {
    let head = format!(in alloc; "size {} {}\n", size.k, size.levels).ok()?;
    let mut text = Vec::new(alloc);
    text.extend_from_slice(head.as_bytes()).ok()?;
    for entry in entries {
        write_step(&mut text, entry.pass, &entry.event).ok()?;
    }
    Some(text)
}

// The script of the events of a journal.
fn script_of(alloc: Global, size: Size, levels: u8, entries: &[Entry]) -> Option<PlayScript>
    ensures { IfSome result (λ script. IsPlayInRange levels (play_view script)) }
{
    let text = text_of(alloc, size, entries)?;
    let script = read_play(alloc, text.as_slice()).ok()?;
    if script.levels != levels {
        return None;
    }
    Some(script)
}

// Plays a journal over the terrain of a store: the files that the play puts.
pub(crate) fn played<R: Threads + Sync>(
    rt: &R,
    alloc: Global,
    store: &Store,
    size: Size,
    entries: &[Entry],
) -> Result<MemoryShelf, Wrong> {
    let levels = store.shape().levels();
    let Some(script) = script_of(alloc, size, levels, entries) else {
        return Err(Wrong::NotPlayed);
    };
    let Ok(mut shelf) = MemoryShelf::new(alloc, Vec::new(alloc), Vec::new(alloc)) else {
        return Err(Wrong::NoMemory);
    };
    let mut sink = MemorySink::new(alloc, Vec::new(alloc));
    let course = Course::Play(&script);
    if run_course(rt, alloc, store, &course, "out", &mut shelf, &mut sink) != 0 {
        return Err(Wrong::NotPlayed);
    }
    Ok(shelf)
}

// Whether the file of a frame has its text.
pub(crate) fn has_frame(alloc: Global, shelf: &MemoryShelf, printed: &Printed) -> bool {
    let Ok(name) = format!(in alloc; "out-{}.obj", printed.note.number) else {
        return false;
    };
    match shelf.file(name.as_str()) {
        Some(text) => text == printed.text.as_slice(),
        None => false,
    }
}
