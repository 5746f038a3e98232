//! The top call.
ghost use Rattle.std.specs.Prelude.{◌≡◌, ◌≤◌, None, map, string_bytes, IfOk, ⊤};
ghost use Rattle.clipmap_words.specs.Commands.{command_of};
ghost use Rattle.clipmap_prog.specs.Commands.{OfOutcome};
ghost use Rattle.clipmap_prog.specs.Promise.{HasCauses, IsComplete, Runs, ShelfCallsWithin, SinkCallsWithin, Stands, status_of};
ghost use Rattle.run_actions.specs.Runs.{HadReason, OnHalt};

use crate::fault::Fault;
use crate::output::{ended, write_fault};
use crate::run::run;
use clipmap_words::read_words;
use outer_shelf::{Shelf, Sink};
use run_actions::Halt;
use std::alloc::Global;
use std::thread::Threads;

/// Does what the words ask for, and answers a status.
///
/// `words` are the words after the program's name. A command reads its inputs from the shelf, puts its files there and
/// writes its lines to `out`; each file is fetched by one call, each put is one call and each write is one call.
///
/// | Status | When |
/// |---|---|
/// | 0 | the command was done, and its files and output are all written |
/// | 1 | the words are no command; the line `fault: words` is written |
/// | 2 | an input was refused; the line of its fault is written |
/// | 3 | a call of the shelf failed; nothing more is written |
/// | 4 | a call of the sink failed; nothing more is written |
/// | 5 | there was no memory; nothing more is written |
pub fn clipmap<R: Threads + Sync, S: Shelf, K: Sink>(
    rt: &R,
    alloc: Global,
    words: &[String],
    shelf: &mut S,
    out: &mut K,
) -> u8
    // What stands afterwards, where the shelf tells its files: the whole outcome, or a front of its actions and what
    // the refused one left.
    ensures stands_where_told { OfOutcome (map string_bytes words.now) (S.told shelf.old)
        (λ outcome. Stands S.leaves outcome result
        (S.told shelf.old) (S.told shelf.new) (K.told out.old) (K.told out.new)) }

    // The causes of each status hold for every shelf and sink.
    ensures causes { HasCauses (map string_bytes words.now) result
        (S.told shelf.old) (S.told shelf.new) (K.told out.old) (K.told out.new) }

    // Where no count of faults rose, the command is done or memory was wanting.
    ensures complete_where_told { OfOutcome (map string_bytes words.now) (S.told shelf.old)
        (λ outcome. IsComplete outcome result
        (S.told shelf.old) (S.told shelf.new) (K.told out.old) (K.told out.new)) }

    // No call is made that the outcome doesn't have.
    ensures shelf_calls_where_told { OfOutcome (map string_bytes words.now) (S.told shelf.old)
        (λ outcome. ShelfCallsWithin outcome (S.told shelf.old) (S.told shelf.new)) }
    ensures sink_calls_where_told { OfOutcome (map string_bytes words.now) (S.told shelf.old)
        (λ outcome. SinkCallsWithin outcome (S.told shelf.old) (K.told out.old) (K.told out.new)) }
{
    status(run_words(rt, alloc, words, shelf, out))
}

// Runs the words. `Ok` is the status.
fn run_words<R: Threads + Sync, S: Shelf, K: Sink>(
    rt: &R,
    alloc: Global,
    words: &[String],
    shelf: &mut S,
    out: &mut K,
) -> Result<u8, Halt>
    ensures runs { OfOutcome (map string_bytes words.now) (S.told shelf.old)
        (λ outcome. Runs S.leaves outcome result
        (S.told shelf.old) (S.told shelf.new) (K.told out.old) (K.told out.new)) }
    ensures small { IfOk result (λ status. status ≤ 2) }
    ensures words { IfOk result (λ status. status ≡ 1 → command_of (map string_bytes words.now) ≡ None) }
    ensures no_command { command_of (map string_bytes words.now) ≡ None → IfOk result (λ status. status ≡ 1)
        × OnHalt result ⊥ ⊤ }
    ensures reason { HadReason result (S.told shelf.old) (S.told shelf.new) (K.told out.old) (K.told out.new) }
{
    match read_words(words) {
        Some(command) => run(rt, alloc, &command, shelf, out),
        None => ended(1, write_fault(alloc, out, Fault::Words)),
    }
}

// The status of a run.
pub(crate) fn status(run: Result<u8, Halt>) -> u8
    ensures value { result ≡ status_of run }
{
    match run {
        Ok(status) => status,
        Err(Halt::ShelfFailed) => 3,
        Err(Halt::SinkFailed) => 4,
        Err(Halt::NoMemory) => 5,
    }
}
