// A sink over standard output.
ghost use Rattle.std.specs.Prelude.{◌≡◌, ℕ, ◌≤◌, None, IfOk, length};
ghost use Rattle.outer_shelf.specs.Counts.{Rose};

use crate::traits::{Sink, SinkFault};
use std::io;
use std::io::ErrorKind;
use std::marker::Model;

/// A sink that writes to standard output.
///
/// It tells neither its bytes nor the number of its calls. Its count of faults starts at 0 and rises
/// in each call that ends because a system call failed, up to the last value of a `u64`.
#[derive(Drop)]
pub struct StreamSink<'a, R> {
    rt: &'a R,
    faults: u64,
}

impl<'a, R> Model for StreamSink<'a, R> {
    ghost Value = { ℕ };

    ghost view = { λ s. s.faults };
}

impl<'a, R> StreamSink<'a, R> {
    /// The sink of the program's standard output.
    pub fn new(rt: &'a R) -> StreamSink<'a, R>
        ensures { result ≡ 0 }
    {
        StreamSink { rt, faults: 0 }
    }
}

// How much of these bytes the output takes at once. To take nothing is an error, unless the call was
// only interrupted.
fn write_some<R: Print>(rt: &R, bytes: &[u8]) -> io::Result<usize>
    ensures { IfOk result (λ count. count ≤ length bytes.now) }
{
    match rt.write_some(bytes) {
        Ok(0) => Err(io::Error::from(ErrorKind::WriteZero)),
        Err(error) if error.kind() == ErrorKind::Interrupted => Ok(0),
        answer => answer,
    }
}

// Writes all of the bytes.
fn write_whole<R: Print>(rt: &R, bytes: &[u8]) -> io::Result<()> {
    let mut rest = bytes;
    for _ in 0..u64::MAX {
        if rest.is_empty() {
            return Ok(());
        }
        let count = write_some(rt, rest)?;
        rest = &rest[count..];
    }
    Err(io::Error::from(ErrorKind::Interrupted))
}

impl<R: Print> Sink for StreamSink<'_, R> {
    ghost told = { λ s. record { written = None; calls = None; faults = s } };

    /// An output that takes nothing of a piece that isn't empty has failed.
    fn write(&mut self, piece: &[u8]) -> Result<(), SinkFault> {
        match write_whole(self.rt, piece) {
            Ok(()) => Ok(()),
            Err(_) => {
                self.faults = self.faults.saturating_add(1);
                Err(SinkFault::Failed)
            }
        }
    }
}
