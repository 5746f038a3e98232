//! Runs of the top call over a shelf and a sink in memory, for the tests of the whole program.
#![tactic(auto)]

use clipmap_prog::{clipmap, swarm};
use outer_shelf::{MemoryShelf, MemorySink, NoMemory, are_names_distinct};
use std::alloc::{AllocError, Global};
use std::sync::Wait;
use std::thread::Threads;

/// The name of a tile.
pub const TILE: &str = "N00E000.hgt";

/// The 3 × 3 tile of the heights 1 to 9.
pub const NINE: [u8; 18] = [0, 1, 0, 2, 0, 3, 0, 4, 0, 5, 0, 6, 0, 7, 0, 8, 0, 9];

/// The exact store of 3 × 3 samples that are 0, but for 30000 in the middle.
pub const STORE: [u8; 33] = [
    0x47, 0x43, 0x54, 0x31, 0, 0, 0, 3, 0, 0, 0, 3, 2, 0, 8, 0, 0, 0, 0, 0, 0, 0, 0, 0, 8, 0x03,
    0xff, 0xff, 0xff, 0xfc, 0xea, 0x60, 0x00,
];

/// Words as a command line has them.
pub fn owned(alloc: Global, words: &[&str]) -> Result<Vec<String>, AllocError> {
    let mut all = Vec::new(alloc);
    for word in words {
        all.push(String::from_str(alloc, word)?)?;
    }
    Ok(all)
}

/// A shelf of files with these names and bytes, whose calls of these numbers fail.
pub fn shelf_of(
    alloc: Global,
    table: &[(&str, &[u8])],
    failing: &[u64],
) -> Result<MemoryShelf, NoMemory> {
    let mut files = Vec::new(alloc);
    for (name, bytes) in table {
        let file = (
            String::from_str(alloc, name)?,
            Vec::from_slice(alloc, bytes)?,
        );
        if files.push(file).is_err() {
            return Err(NoMemory);
        }
    }
    if !are_names_distinct(&files) {
        return Err(NoMemory);
    }
    MemoryShelf::new(alloc, files, Vec::from_slice(alloc, failing)?)
}

/// What a run left: its status, the shelf, and the sink.
#[derive(Drop)]
pub struct Left {
    /// The status.
    pub status: u8,
    /// The shelf.
    pub shelf: MemoryShelf,
    /// The sink.
    pub sink: MemorySink,
}

impl Left {
    /// What was written.
    pub fn log(&self) -> &[u8] {
        self.sink.bytes()
    }

    /// The file of that name, where there is one.
    pub fn file(&self, name: &str) -> Option<&[u8]> {
        self.shelf.file(name)
    }

    /// The file of that name of a run that was done.
    pub fn done(&self, name: &str) -> Option<&[u8]> {
        if self.status == 0 {
            self.file(name)
        } else {
            None
        }
    }

    /// The bytes of the file `o`, under which the runs here put, or nothing.
    pub fn out(&self) -> &[u8] {
        self.file("o").unwrap_or(b"")
    }

    /// Whether the command was refused by one line and nothing else: there is no file `o`.
    pub fn is_refused(&self, line: &[u8]) -> bool {
        self.status == 2 && self.log() == line && self.file("o").is_none()
    }
}

/// Runs the words over a shelf with these files.
pub fn run<R: Threads + Sync + AllocGlobal>(
    rt: &R,
    words: &[&str],
    files: &[(&str, &[u8])],
) -> Result<Left, NoMemory> {
    run_failing(rt, words, files, &[], &[])
}

/// The same, where calls of the shelf and of the sink with these numbers fail.
pub fn run_failing<R: Threads + Sync + AllocGlobal>(
    rt: &R,
    words: &[&str],
    files: &[(&str, &[u8])],
    shelf_failing: &[u64],
    sink_failing: &[u64],
) -> Result<Left, NoMemory> {
    let alloc = rt.alloc();
    let words = owned(alloc, words)?;
    let mut shelf = shelf_of(alloc, files, shelf_failing)?;
    let mut sink = MemorySink::new(alloc, Vec::from_slice(alloc, sink_failing)?);
    let status = clipmap(rt, alloc, words.as_slice(), &mut shelf, &mut sink);
    Ok(Left {
        status,
        shelf,
        sink,
    })
}

/// Runs the words of a swarm over a shelf with these files, where calls of the shelf and of the sink with these numbers
/// fail.
pub fn run_swarm<R: Threads + Wait + Sync + AllocGlobal>(
    rt: &R,
    words: &[&str],
    files: &[(&str, &[u8])],
    shelf_failing: &[u64],
    sink_failing: &[u64],
) -> Result<Left, NoMemory> {
    let alloc = rt.alloc();
    let words = owned(alloc, words)?;
    let mut shelf = shelf_of(alloc, files, shelf_failing)?;
    let mut sink = MemorySink::new(alloc, Vec::from_slice(alloc, sink_failing)?);
    let status = swarm(rt, alloc, words.as_slice(), &mut shelf, &mut sink);
    Ok(Left {
        status,
        shelf,
        sink,
    })
}

/// How many lines a text has that each end with a line feed.
pub fn lines(text: &[u8]) -> usize {
    text.iter().filter(|byte| **byte == b'\n').count()
}

/// The line of a text of that number, counted from 0.
pub fn line(text: &[u8], number: usize) -> &[u8] {
    text.split(|byte| *byte == b'\n').nth(number).unwrap_or(b"")
}
