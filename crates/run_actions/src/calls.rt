//! One put and one write, and how each ends.
ghost use Rattle.std.specs.Prelude.{◌≡◌, ◌≤◌};
ghost use Rattle.outer_shelf.specs.Counts.{Rose};
ghost use Rattle.run_actions.specs.Runs.{CallsWithin, OnHalt, PutEnds, WriteEnds};

use crate::halt::Halt;
use outer_shelf::{PutFault, Shelf, Sink, SinkFault};

/// Puts a file on the shelf, by one call.
pub fn put<S: Shelf>(shelf: &mut S, name: &str, bytes: &[u8]) -> Result<(), Halt>
    ensures ends { PutEnds S.leaves name.now bytes.now result (S.told shelf.old).files (S.told shelf.new).files }
    ensures calls { CallsWithin 1 (S.told shelf.old).calls (S.told shelf.new).calls }
    ensures reason { OnHalt result (Rose (S.told shelf.old).faults (S.told shelf.new).faults) ⊥ }
    ensures faults_stay { (S.told shelf.old).faults ≤ (S.told shelf.new).faults }
{
    match shelf.put(name, bytes) {
        Ok(()) => Ok(()),
        Err(PutFault::Failed) => Err(Halt::ShelfFailed),
        Err(PutFault::NoMemory) => Err(Halt::NoMemory),
    }
}

/// Writes a piece to the sink, by one call.
pub fn write<K: Sink>(out: &mut K, piece: &[u8]) -> Result<(), Halt>
    ensures ends { WriteEnds piece.now result (K.told out.old).written (K.told out.new).written }
    ensures calls { CallsWithin 1 (K.told out.old).calls (K.told out.new).calls }
    ensures reason { OnHalt result ⊥ (Rose (K.told out.old).faults (K.told out.new).faults) }
    ensures faults_stay { (K.told out.old).faults ≤ (K.told out.new).faults }
{
    match out.write(piece) {
        Ok(()) => Ok(()),
        Err(SinkFault::Failed) => Err(Halt::SinkFailed),
        Err(SinkFault::NoMemory) => Err(Halt::NoMemory),
    }
}
