//! The other top call.
ghost use Rattle.std.specs.Prelude.{◌≡◌, ◌≤◌, ◌⊎◌, None, map, string_bytes, IfOk, ⊤};
ghost use Rattle.clipmap_words.specs.Swarm.{swarm_words_of};
ghost use Rattle.clipmap_prog.specs.Stores.{ByVerdict};
ghost use Rattle.clipmap_prog.specs.Swarm.{AnswersSwarm, HasSwarmCauses, SwarmEnds, inputs_of};
ghost use Rattle.run_actions.specs.Runs.{HadReason, OnHalt};

use crate::fault::Fault;
use crate::output::{ended, write_fault};
use crate::swarms::run_words;
use crate::top::status;
use clipmap_words::read_swarm;
use outer_shelf::{Shelf, Sink};
use run_actions::Halt;
use std::alloc::Global;
use std::sync::Wait;
use std::thread::Threads;

/// Runs a swarm: workers, renderers and one mover go freely over one book, each on a thread of its own where threads
/// can be had, and the history of it comes out as a play script. Answers a status.
///
/// `words` are the words after the program's name, `swarm N R SCRIPT OUT INPUT+`. The script and the inputs are read
/// from the shelf, each by one call. Then the frames are put, `OUT-f.obj` by rising number, each by one call, and at
/// last the play script is written to `out`, by one call: a play of it puts the same files.
///
/// | Status | When |
/// |---|---|
/// | 0 | the swarm was done, and its files and its play script are all written |
/// | 1 | the words are no swarm; the line `fault: words` is written |
/// | 2 | the script or an input was refused; the line of its fault is written |
/// | 3 | a call of the shelf failed; nothing more is written |
/// | 4 | a call of the sink failed; nothing more is written |
/// | 5 | there was no memory; nothing more is written |
/// | 6 | the journal was full, so that the swarm was cut; its files and its play script are all written |
pub fn swarm<R: Threads + Wait + Sync, S: Shelf, K: Sink>(
    rt: &R,
    alloc: Global,
    words: &[String],
    shelf: &mut S,
    out: &mut K,
) -> u8
    // What stands afterwards, where the shelf tells its files: what may come of the words, whole or a front of it.
    ensures stands_where_told { AnswersSwarm S.leaves (map string_bytes words.now) result
        (S.told shelf.old) (S.told shelf.new) (K.told out.old) (K.told out.new) }

    // The causes of each status hold for every shelf and sink.
    ensures causes { HasSwarmCauses (map string_bytes words.now) result
        (S.told shelf.old) (S.told shelf.new) (K.told out.old) (K.told out.new) }
{
    status(swarm_words(rt, alloc, words, shelf, out))
}

// Runs the words of a swarm. `Ok` is the status.
fn swarm_words<R: Threads + Wait + Sync, S: Shelf, K: Sink>(
    rt: &R,
    alloc: Global,
    words: &[String],
    shelf: &mut S,
    out: &mut K,
) -> Result<u8, Halt>
    ensures ends { ByVerdict (inputs_of (swarm_words_of (map string_bytes words.now))) (S.told shelf.old).files
        (λ verdict. SwarmEnds S.leaves verdict (swarm_words_of (map string_bytes words.now)) result
        (S.told shelf.old) (S.told shelf.new) (K.told out.old) (K.told out.new)) }
    ensures status { IfOk result (λ status. (status ≤ 2) ⊎ (status ≡ 6)) }
    ensures words { IfOk result (λ status. status ≡ 1 → swarm_words_of (map string_bytes words.now) ≡ None) }
    ensures no_swarm { swarm_words_of (map string_bytes words.now) ≡ None → IfOk result (λ status. status ≡ 1)
        × OnHalt result ⊥ ⊤ }
    ensures reason { HadReason result (S.told shelf.old) (S.told shelf.new) (K.told out.old) (K.told out.new) }
{
    match read_swarm(words) {
        Some(swarm) => run_words(rt, alloc, &swarm, shelf, out),
        None => ended(1, write_fault(alloc, out, Fault::Words)),
    }
}
