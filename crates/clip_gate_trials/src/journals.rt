//! Journals, judged by the plain program and by a play.

ghost use Rattle.std.specs.Prelude.{◌≡◌};
ghost use Rattle.plan_model.specs.Limits.{IsSize};

use crate::frames::{Done, Printed, is_right};
use crate::plays::{has_frame, played};
use crate::settings::{Size, Wrong};
use clip_gate::{Clip, Entry, Journal, Pass};
use height_pyramid::Grid;
use outer_shelf::MemoryShelf;
use plan_plain::stops_at;
use std::alloc::{AllocError, Global};
use std::thread::Threads;
use terrain_store::Store;

// The entries of a journal.
fn entries_of(alloc: Global, journal: &Journal) -> Result<Vec<Entry>, AllocError> {
    let mut entries = Vec::new(alloc);
    for place in 0..journal.len() {
        entries.push(journal.at(place))?;
    }
    Ok(entries)
}

// Whether entries are a legal history.
fn are_legal(alloc: Global, size: Size, entries: &[Entry]) -> bool {
    if entries.len() > 1_048_576 {
        return false;
    }
    match stops_at(alloc, size.k, size.levels, entries) {
        Ok(stop) => stop.is_none(),
        Err(_) => false,
    }
}

// Ends a clip. The entries of its journal, which are legal.
pub(crate) fn closed(alloc: Global, clip: Clip, pass: Pass, size: Size) -> Result<Vec<Entry>, Wrong>
    requires { pass.clip ≡ clip }
{
    let Ok((_, journal)) = clip.close(pass) else {
        return Err(Wrong::TurnOut);
    };
    let Ok(entries) = entries_of(alloc, &journal) else {
        return Err(Wrong::NoMemory);
    };
    if !are_legal(alloc, size, entries.as_slice()) {
        return Err(Wrong::NotLegal);
    }
    Ok(entries)
}

// Whether all texts of frames are those of their regions over the terrain, and those of a play.
fn are_right(alloc: Global, frames: &[Printed], shelf: &MemoryShelf, grid: &Grid, k: u8) -> bool
    requires { IsSize k }
{
    for printed in frames {
        if !is_right(alloc, printed, grid, k) || !has_frame(alloc, shelf, printed) {
            return false;
        }
    }
    true
}

// Ends a clip and judges its journal and the frames that were drawn. How many entries there are.
pub(crate) fn judged<R: Threads + Sync>(
    rt: &R,
    alloc: Global,
    clip: Clip,
    store: &Store,
    done: Done,
    grid: &Grid,
    size: Size,
) -> Result<usize, Wrong>
    requires { done.pass.clip ≡ clip }
{
    let Done { pass, frames } = done;
    let entries = closed(alloc, clip, pass, size)?;
    let shelf = played(rt, alloc, store, size, entries.as_slice())?;
    if !are_right(alloc, frames.as_slice(), &shelf, grid, size.k) {
        return Err(Wrong::Text);
    }
    Ok(entries.len())
}
