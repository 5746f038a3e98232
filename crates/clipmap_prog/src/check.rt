//! The command `check`.
ghost use Rattle.std.specs.Prelude.{◌≡◌, ◌≤◌, ◌^◌, ◌⊎◌, IfOk, IfSome, length};
ghost use Rattle.std.specs.FinMap as finite;
ghost use Rattle.outer_shelf.specs.Counts.{Rose};
ghost use Rattle.outer_shelf.specs.Outside.{ShelfTold};
ghost use Rattle.mesh_check.specs.Verdict.{verdict};
ghost use Rattle.clipmap_words.specs.Check.{check_view};
ghost use Rattle.clipmap_prog.specs.Check.{check_actions, check_outcome, judged, text_of_file};
ghost use Rattle.clipmap_prog.specs.Promise.{Runs};
ghost use Rattle.clipmap_prog.specs.Reading.{Finds, OnStop};
ghost use Rattle.run_actions.specs.Runs.{CallsWithin, HadReason, Ran, leaves_nothing};

use crate::fault::{Fault, FileFault};
use crate::output::{ended, write_fault};
use crate::reading::Stop;
use crate::verdicts::watertight_line;
use clipmap_words::CheckWords;
use mesh_check::{Verdict, check_text};
use outer_shelf::{Fetched, Shelf, Sink};
use run_actions::{Halt, write};
use std::alloc::Global;

/// The most bytes that a file to be judged may have.
pub const TEXT_LIMIT: u64 = 268_435_456;

// How many triangles the mesh of a file's text has, if it is watertight.
fn judge_text<'a>(alloc: Global, bytes: &[u8]) -> Result<u32, Stop<'a>>
    requires in_limit { length bytes.now ≤ 2 ^ 28 }
    ensures found { Finds (λ triangles. triangles) result (judged (verdict bytes.now)) }
    ensures reason { OnStop result ⊥ }
{
    match check_text(alloc, bytes) {
        Verdict::Watertight { triangles } => Ok(triangles),
        Verdict::NoMemory => Err(Stop::Halted(Halt::NoMemory)),
        verdict => Err(Stop::Refused(Fault::Mesh(verdict))),
    }
}

// The same of the file of that name, by one fetch.
fn read_check<'a, S: Shelf>(alloc: Global, shelf: &mut S, name: &'a str) -> Result<u32, Stop<'a>>
    ensures found { IfSome (S.told shelf.old).files (λ files. Finds (λ triangles. triangles) result
        (text_of_file name.now (finite.get files name.now))) }
    ensures calls { CallsWithin 1 (S.told shelf.old).calls (S.told shelf.new).calls }
    ensures reason { OnStop result (Rose (S.told shelf.old).faults (S.told shelf.new).faults) }
    ensures files_stay { (S.told shelf.new).files ≡ (S.told shelf.old).files }
    ensures faults_stay { (S.told shelf.old).faults ≤ (S.told shelf.new).faults }
{
    match shelf.fetch(alloc, name, TEXT_LIMIT) {
        Fetched::Found(bytes) => judge_text(alloc, bytes.as_slice()),
        Fetched::Absent => Err(Stop::Refused(Fault::File(name, FileFault::Absent))),
        Fetched::TooLong { length, limit } => {
            let fault = FileFault::TooLong { length, limit };
            Err(Stop::Refused(Fault::File(name, fault)))
        }
        Fetched::Failed => Err(Stop::Halted(Halt::ShelfFailed)),
        Fetched::NoMemory => Err(Stop::Halted(Halt::NoMemory)),
    }
}

// Tells that a mesh of so many triangles is watertight.
fn tell<K: Sink>(alloc: Global, triangles: u32, out: &mut K) -> Result<(), Halt>
    ensures ran { (shelf : ShelfTold) → Ran leaves_nothing 0 (check_actions triangles) result
        shelf shelf (K.told out.old) (K.told out.new) }
    ensures reason { (shelf : ShelfTold) → HadReason result shelf shelf (K.told out.old) (K.told out.new) }
{
    match watertight_line(alloc, triangles) {
        Ok(line) => write(out, line.as_bytes()),
        Err(_) => Err(Halt::NoMemory),
    }
}

// Runs a `check`. `Ok` is the status: 0 where the mesh is watertight, and 2 where it isn't or the file is refused, and
// the line of that is written.
pub(crate) fn run_check<S: Shelf, K: Sink>(
    alloc: Global,
    check: &CheckWords<'_>,
    shelf: &mut S,
    out: &mut K,
) -> Result<u8, Halt>
    ensures runs { Runs S.leaves (check_outcome (check_view check.now)) result
        (S.told shelf.old) (S.told shelf.new) (K.told out.old) (K.told out.new) }
    ensures status { IfOk result (λ status. (status ≡ 0) ⊎ (status ≡ 2)) }
    ensures reason { HadReason result (S.told shelf.old) (S.told shelf.new) (K.told out.old) (K.told out.new) }
{
    match read_check(alloc, shelf, check.file) {
        Ok(triangles) => ended(0, tell(alloc, triangles, out)),
        Err(Stop::Refused(fault)) => ended(2, write_fault(alloc, out, fault)),
        Err(Stop::Halted(halt)) => Err(halt),
    }
}
