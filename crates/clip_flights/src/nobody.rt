//! A shelf and a sink of nobody: what is put there and written there is gone.

ghost use Rattle.std.specs.Prelude.{None};

use outer_shelf::{Fetched, PutFault, Shelf, Sink, SinkFault};
use std::alloc::Global;

// Nobody, who tells nothing and never fails.
#[derive(Drop)]
pub(crate) struct Nobody;

impl Shelf for Nobody {
    ghost told = { λ _. record { files = None; calls = None; faults = 0 } };

    /// There is no file.
    fn fetch(&mut self, _alloc: Global, _name: &str, _limit: u64) -> Fetched {
        Fetched::Absent
    }

    /// The file is gone.
    fn put(&mut self, _name: &str, _bytes: &[u8]) -> Result<(), PutFault> {
        Ok(())
    }
}

impl Sink for Nobody {
    ghost told = { λ _. record { written = None; calls = None; faults = 0 } };

    /// The piece is gone.
    fn write(&mut self, _piece: &[u8]) -> Result<(), SinkFault> {
        Ok(())
    }
}
