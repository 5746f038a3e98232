//! The journal, and the book with it.

ghost use Rattle.std.specs.Prelude.{◌≡◌, ◌<◌, ◌++◌, ◌∷◌, [], length, IfOk, slice_get, Some};

use clip_book::{Book, NoMemory};
use plan_model::Entry;
use std::alloc::Global;
use std::marker::Model;

/// The events of all passes over a book with their answers, the oldest first. A contract sees the list of entries.
#[derive(Drop)]
pub struct Journal {
    pub(crate) entries: Vec<Entry>,
}

impl Model for Journal {
    ghost use Rattle.std.specs.Prelude.{◌≡◌, ◌≤◌, List, length, vec_capacity};
    ghost use Rattle.plan_model.specs.declared.events.Entry.{Entry};

    ghost Value = { List Entry };

    ghost view = { λ s. s.entries.items };

    ghost invariant = { λ s. (vec_capacity s.entries ≡ 1048576) × (length s.entries.items ≤ 1048576) };
}

impl Journal {
    /// An empty journal with all memory that it will have: room for 1,048,576 entries. It fails where memory runs out.
    pub fn start(alloc: Global) -> Result<Journal, NoMemory>
        ensures { IfOk result (λ journal. journal ≡ []) }
    {
        match Vec::with_capacity(alloc, 1048576) {
            Ok(entries) => Ok(Journal { entries }),
            Err(_) => Err(NoMemory),
        }
    }

    /// One entry more, in memory that is there.
    pub fn push(&mut self, entry: Entry)
        requires { length self.old < 1048576 }
        ensures { self.new ≡ self.old ++ entry ∷ [] }
    {
        self.entries.push_reserved(entry);
    }

    /// How many entries there are.
    pub fn len(&self) -> u32
        ensures { result ≡ length self.now }
    {
        self.entries.len() as u32
    }

    /// The entry at a place, from 0 on.
    pub fn at(&self, index: u32) -> Entry
        requires { index < length self.now }
        ensures { slice_get self.now index ≡ Some result }
    {
        self.entries[index as usize]
    }
}

/// The book with its journal, and how many of the journal's places are taken.
#[derive(Drop)]
pub struct Desk {
    /// The book.
    pub book: Book,
    /// The journal.
    pub journal: Journal,
    /// The places that are taken: the entries, and one for each pass that has a job or a frame.
    pub taken: u32,
}
