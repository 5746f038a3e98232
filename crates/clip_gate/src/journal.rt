//! The journal of a clip that is closed.

ghost use Rattle.std.specs.Prelude.{◌≡◌, ◌<◌, length, slice_get, Some};

use plan_model::Entry;
use std::marker::Model;

/// The events of all passes over a clip with their answers, the oldest first.
///
/// It is made by [`Clip::close`](crate::Clip::close) alone. A contract sees the list of its entries.
#[derive(Drop)]
pub struct Journal {
    pub(crate) entries: gate_rule::Journal,
}

impl Model for Journal {
    ghost use Rattle.std.specs.Prelude.{List};
    ghost use Rattle.plan_model.specs.declared.events.Entry.{Entry};

    ghost Value = { List Entry };

    ghost view = { λ s. s.entries };
}

impl Journal {
    /// How many entries there are: 1,048,576 at most.
    pub fn len(&self) -> u32
        ensures { result ≡ length self.now }
    {
        self.entries.len()
    }

    /// The entry at a place, from 0 on.
    pub fn at(&self, index: u32) -> Entry
        requires { index < length self.now }
        ensures { slice_get self.now index ≡ Some result }
    {
        self.entries.at(index)
    }
}
