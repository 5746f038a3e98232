//! A swarm over a store or another filler of jobs, and what is put and written of it.

ghost use Rattle.std.specs.Prelude.{◌≡◌, ◌+◌, ◌*◌, ◌^◌, ◌≤◌, ◌⊎◌, All, IfOk, if◌then◌else◌};
ghost use Rattle.clip_script.specs.Ranges.{AreSizes, IsMove};
ghost use Rattle.clip_script.specs.Scripts.{swarm_view};
ghost use Rattle.run_actions.specs.Actions.{content_of};
ghost use Rattle.run_actions.specs.Runs.{CallsWithin, HadReason};
ghost use Rattle.swarm_runs.specs.Products.{Ends, MayCome, orders_of};
ghost use Rattle.swarm_runs.specs.Shown.{HasShown, product_of, with_status};

use crate::frames::put_frames;
use crate::journal::journal_text;
use clip_script::SwarmScript;
use clip_swarm::{SwarmRun, run};
use decode_rounds::Quiet;
use decode_workers::Filler;
use outer_shelf::{Shelf, Sink};
use run_actions::{Halt, write};
use std::alloc::Global;
use std::sync::Wait;
use std::thread::Threads;
use swarm_plays::{journals_are_play_scripts, plays_put_what_histories_close};

// The status of a run: 6 where its journal was full.
fn status(run: &SwarmRun) -> u8
    ensures { result ≡ (if run.now.full then 6 else 0) }
{
    if run.full { 6 } else { 0 }
}

// The answer of a writing that has that status where it was done.
fn ended(status: u8, wrote: Result<(), Halt>) -> Result<u8, Halt>
    ensures { result ≡ with_status status wrote }
{
    wrote?;
    Ok(status)
}

// Puts the frames of a swarm, and then writes its history.
fn show<S: Shelf, K: Sink>(
    alloc: Global,
    script: &SwarmScript,
    run: &SwarmRun,
    name: &str,
    shelf: &mut S,
    out: &mut K,
) -> Result<u8, Halt>
    ensures shown { HasShown S.leaves (product_of script.now.k script.now.levels name.now run.now) result
        (S.told shelf.old) (S.told shelf.new) (K.told out.old) (K.told out.new) }
    ensures status { IfOk result (λ status. (status ≡ 0) ⊎ (status ≡ 6)) }
    ensures reason { HadReason result (S.told shelf.old) (S.told shelf.new) (K.told out.old) (K.told out.new) }
{
    let text = match journal_text(alloc, script.k, script.levels, &run.journal) {
        Ok(text) => text,
        Err(_) => return Err(Halt::NoMemory),
    };
    put_frames(alloc, shelf, name, &run.frames)?;
    ended(status(run), write(out, &text))
}

/// Runs a swarm over the terrain that the filler's shape names, puts the frames that it closed, `NAME-f.obj` by rising
/// number, and then writes its history, as a play script that begins with its sizes.
///
/// `Ok` is the status: 0, or 6 where the journal was full, so that the swarm was cut. Each file is put by one call, and
/// the history is written by one.
pub fn run_swarm<R: Threads + Wait + Sync, F: Filler + Sync, S: Shelf, K: Sink>(
    rt: &R,
    alloc: Global,
    filler: &F,
    script: &SwarmScript,
    workers: u8,
    renderers: u8,
    name: &str,
    shelf: &mut S,
    out: &mut K,
) -> Result<u8, Halt>
    // The script is of the terrain's levels, and asks for what a swarm can do.
    requires some { 1 ≤ workers }
    requires few { workers + renderers ≤ 15 }
    requires sizes { AreSizes script.now.k script.now.levels }
    requires levels { script.now.levels ≡ (F.land filler.now).levels }
    requires moves { All IsMove script.now.moves.items }
    requires cells { renderers * script.now.begins * script.now.levels * 4 ^ script.now.k ≤ 2 ^ 24 }

    // It halts at once, or puts and writes what may come of the swarm, or a front of that.
    ensures ends { Ends S.leaves (MayCome (orders_of (swarm_view script.now) workers renderers)
        (F.land filler.now).terrain script.now.k script.now.levels name.now) 0 result
        (S.told shelf.old) (S.told shelf.new) (K.told out.old) (K.told out.new) }
    ensures status { IfOk result (λ status. (status ≡ 0) ⊎ (status ≡ 6)) }
    ensures reason { HadReason result (S.told shelf.old) (S.told shelf.new) (K.told out.old) (K.told out.new) }
{
    journals_are_play_scripts();
    plays_put_what_histories_close();
    match run(rt, alloc, filler, script, workers, renderers, &Quiet) {
        Ok(run) => show(alloc, script, &run, name, shelf, out),
        Err(_) => Err(Halt::NoMemory),
    }
}
