//! The line of a fault, written, and the answer of a run with a status.
ghost use Rattle.std.specs.Prelude.{◌≡◌, ◌≤◌};
ghost use Rattle.outer_shelf.specs.Counts.{Rose};
ghost use Rattle.clipmap_prog.specs.Faults.{cause_line, cause_of};
ghost use Rattle.clipmap_prog.specs.Promise.{with_status};
ghost use Rattle.run_actions.specs.Runs.{CallsWithin, OnHalt, WriteEnds};

use crate::fault::{Fault, fault_line};
use outer_shelf::Sink;
use run_actions::{Halt, write};
use std::alloc::Global;

// Writes the line of a fault, by one call.
pub(crate) fn write_fault<K: Sink>(alloc: Global, out: &mut K, fault: Fault<'_>) -> Result<(), Halt>
    ensures ends { WriteEnds (cause_line (cause_of fault.entry)) result
        (K.told out.old).written (K.told out.new).written }
    ensures calls { CallsWithin 1 (K.told out.old).calls (K.told out.new).calls }
    ensures reason { OnHalt result ⊥ (Rose (K.told out.old).faults (K.told out.new).faults) }
    ensures faults_stay { (K.told out.old).faults ≤ (K.told out.new).faults }
{
    match fault_line(alloc, fault) {
        Ok(line) => write(out, line.as_bytes()),
        Err(_) => Err(Halt::NoMemory),
    }
}

// The answer of a run that has that status where it was done.
pub(crate) fn ended(status: u8, run: Result<(), Halt>) -> Result<u8, Halt>
    ensures value { result ≡ with_status status run }
{
    run?;
    Ok(status)
}
