//! The script and the inputs of a `swarm`, and its run.
ghost use Rattle.std.specs.Prelude.{◌≡◌, ◌*◌, ◌^◌, ◌≤◌, ◌⊎◌, IfOk, IfSome, Ok, Some, length, option_map};
ghost use Rattle.std.specs.FinMap as finite;
ghost use Rattle.outer_shelf.specs.Counts.{Rose, one_more};
ghost use Rattle.plan_model.specs.Limits.{IsSize};
ghost use Rattle.clip_script.specs.Ranges.{AreSizes, IsWork};
ghost use Rattle.clip_script.specs.Scripts.{swarm_view as script_view};
ghost use Rattle.clipmap_words.specs.Swarm.{IsSwarmInRange, swarm_view};
ghost use Rattle.clipmap_prog.specs.Swarm.{IsScriptInRange, IsStageInRange, MayComeOf, SwarmEnds};
ghost use Rattle.clipmap_prog.specs.Swarm.{bounded, read_swarm, stage_view, swarm_reading};
ghost use Rattle.clipmap_prog.specs.Scripts.{script_of_file};
ghost use Rattle.clipmap_prog.specs.Reading.{Finds, OnStop};
ghost use Rattle.run_actions.specs.Runs.{CallsWithin, HadReason};
ghost use Rattle.swarm_runs.specs.Products.{Ends};
ghost use Rattle.clipmap_prog.specs.Stores.{ByVerdict, Verdict};

use crate::fault::{Fault, FileFault};
use crate::grounds::read_land;
use crate::output::{ended, write_fault};
use crate::play::SCRIPT_LIMIT;
use crate::reading::Stop;
use clip_script::{ScriptFault, SwarmScript, read_swarm};
use clipmap_words::SwarmWords;
use outer_shelf::{Fetched, Shelf, Sink};
use run_actions::Halt;
use std::alloc::Global;
use std::sync::Wait;
use std::thread::Threads;
use swarm_runs::run_swarm;
use terrain_store::Store;

/// The most cells that a swarm may draw: of its renderers, their frames, the levels, and 4^K each.
pub const CELLS_LIMIT: u64 = 16_777_216;

// A script with the store that it is run over.
#[derive(Drop)]
pub(crate) struct Staged {
    pub(crate) script: SwarmScript,
    pub(crate) store: Store,
}

// How many cells a level of a frame has at most.
fn level_cells(k: u8) -> u64
    requires size { IsSize k }
    ensures value { result ≡ 4 ^ k }
    ensures few { result ≤ 65536 }
{
    match k {
        4 => 256,
        5 => 1024,
        6 => 4096,
        7 => 16_384,
        _ => 65_536,
    }
}

// How many cells so many renderers draw at most.
fn cells(renderers: u8, begins: u32, levels: u8, k: u8) -> u64
    requires few_begins { begins ≤ 1000 }
    requires sizes { AreSizes k levels }
    ensures value { result ≡ renderers * begins * levels * 4 ^ k }
{
    let frames = u64::from(renderers) * u64::from(begins);
    let layers = frames * u64::from(levels);
    layers * level_cells(k)
}

// A script that doesn't ask for too much of so many renderers.
fn bounded<'a>(renderers: u8, script: SwarmScript) -> Result<SwarmScript, Stop<'a>>
    requires sizes { AreSizes script.k script.levels }
    requires work { IsWork script.claims script.begins }
    ensures found { Finds script_view result (bounded renderers (script_view script)) }
    ensures same { IfOk result (λ same. same ≡ script) }
    ensures few_cells { IfOk result (λ script. renderers * script.begins * script.levels * 4 ^ script.k ≤ 16777216) }
    ensures reason { OnStop result ⊥ }
{
    let cells = cells(renderers, script.begins, script.levels, script.k);
    if cells > CELLS_LIMIT {
        let limit = CELLS_LIMIT;
        return Err(Stop::Refused(Fault::TooMuch { cells, limit }));
    }
    Ok(script)
}

// The script of the bytes of a file, if they are one that so many renderers can do.
fn judge_script<'a>(alloc: Global, renderers: u8, bytes: &[u8]) -> Result<SwarmScript, Stop<'a>>
    ensures found { Finds script_view result (read_swarm renderers bytes.now) }
    ensures in_range { IfOk result (λ script. IsScriptInRange renderers script.levels (script_view script)) }
    ensures reason { OnStop result ⊥ }
{
    match read_swarm(alloc, bytes) {
        Ok(script) => bounded(renderers, script),
        Err(ScriptFault::NoMemory) => Err(Stop::Halted(Halt::NoMemory)),
        Err(fault) => Err(Stop::Refused(Fault::Script(fault))),
    }
}

// The script of the file of that name, by one fetch.
fn fetch_script<'a, S: Shelf>(
    alloc: Global,
    shelf: &mut S,
    name: &'a str,
    renderers: u8,
) -> Result<SwarmScript, Stop<'a>>
    ensures found { IfSome (S.told shelf.old).files (λ files. Finds script_view result
        (script_of_file (read_swarm renderers) name.now (finite.get files name.now))) }
    ensures in_range { IfOk result (λ script. IsScriptInRange renderers script.levels (script_view script)) }
    ensures counted { (S.told shelf.new).calls ≡ option_map one_more (S.told shelf.old).calls }
    ensures reason { OnStop result (Rose (S.told shelf.old).faults (S.told shelf.new).faults) }
    ensures files_stay { (S.told shelf.new).files ≡ (S.told shelf.old).files }
    ensures faults_stay { (S.told shelf.old).faults ≤ (S.told shelf.new).faults }
{
    match shelf.fetch(alloc, name, SCRIPT_LIMIT) {
        Fetched::Found(bytes) => judge_script(alloc, renderers, bytes.as_slice()),
        Fetched::Absent => Err(Stop::Refused(Fault::File(name, FileFault::Absent))),
        Fetched::TooLong { length, limit } => {
            let fault = FileFault::TooLong { length, limit };
            Err(Stop::Refused(Fault::File(name, fault)))
        }
        Fetched::Failed => Err(Stop::Halted(Halt::ShelfFailed)),
        Fetched::NoMemory => Err(Stop::Halted(Halt::NoMemory)),
    }
}

// The script of a `swarm`, and then its inputs.
fn stage<'a, R: Threads + Sync, S: Shelf>(
    rt: &R,
    alloc: Global,
    shelf: &mut S,
    swarm: &SwarmWords<'a>,
) -> Result<Staged, Stop<'a>>
    requires few_inputs { length swarm.now.inputs.now ≤ 64 }

    // It finds what the definition's reading finds, by as many calls at most.
    ensures found { ByVerdict (swarm_view swarm.now).inputs (S.told shelf.old).files
        (λ verdict. IfSome (S.told shelf.old).files (λ files. Finds stage_view result
        (swarm_reading verdict (swarm_view swarm.now) files).found)) }
    ensures calls { (verdict : Verdict) → IfSome (S.told shelf.old).files
        (λ files. CallsWithin (swarm_reading verdict (swarm_view swarm.now) files).fetches
        (S.told shelf.old).calls (S.told shelf.new).calls) }

    // The script is in range for the terrain's levels.
    ensures in_range { IfOk result (λ staged. IsStageInRange swarm.now.renderers (stage_view staged)) }

    // A stop has a reason, and no file changes.
    ensures reason { OnStop result (Rose (S.told shelf.old).faults (S.told shelf.new).faults) }
    ensures files_stay { (S.told shelf.new).files ≡ (S.told shelf.old).files }
    ensures faults_stay { (S.told shelf.old).faults ≤ (S.told shelf.new).faults }
{
    let script = fetch_script(alloc, shelf, swarm.script, swarm.renderers)?;
    let store = read_land(rt, alloc, shelf, swarm.inputs, script.levels)?;
    Ok(Staged { script, store })
}

// Runs a script over a store, and puts and writes what comes of it.
fn run_staged<R: Threads + Wait + Sync, S: Shelf, K: Sink>(
    rt: &R,
    alloc: Global,
    staged: &Staged,
    swarm: &SwarmWords<'_>,
    shelf: &mut S,
    out: &mut K,
) -> Result<u8, Halt>
    requires words { IsSwarmInRange (swarm_view swarm.now) }
    requires in_range { IsStageInRange swarm.now.renderers (stage_view staged.now) }
    ensures ends { Ends S.leaves (MayComeOf (swarm_view swarm.now) (Ok (stage_view staged.now))) 0 result
        (S.told shelf.old) (S.told shelf.new) (K.told out.old) (K.told out.new) }
    ensures status { IfOk result (λ status. (status ≡ 0) ⊎ (status ≡ 6)) }
    ensures reason { HadReason result (S.told shelf.old) (S.told shelf.new) (K.told out.old) (K.told out.new) }
{
    let SwarmWords {
        workers,
        renderers,
        out: name,
        ..
    } = *swarm;
    run_swarm(
        rt,
        alloc,
        &staged.store,
        &staged.script,
        workers,
        renderers,
        name,
        shelf,
        out,
    )
}

// Runs a `swarm`. `Ok` is the status: 0 where it is done, 6 where its journal was full, and 2 where it is refused and
// the line of its fault is written.
pub(crate) fn run_words<R: Threads + Wait + Sync, S: Shelf, K: Sink>(
    rt: &R,
    alloc: Global,
    swarm: &SwarmWords<'_>,
    shelf: &mut S,
    out: &mut K,
) -> Result<u8, Halt>
    requires in_range { IsSwarmInRange (swarm_view swarm.now) }
    ensures ends { ByVerdict (swarm_view swarm.now).inputs (S.told shelf.old).files
        (λ verdict. SwarmEnds S.leaves verdict (Some (swarm_view swarm.now)) result
        (S.told shelf.old) (S.told shelf.new) (K.told out.old) (K.told out.new)) }
    ensures status { IfOk result (λ status. (status ≡ 0) ⊎ ((status ≡ 2) ⊎ (status ≡ 6))) }
    ensures reason { HadReason result (S.told shelf.old) (S.told shelf.new) (K.told out.old) (K.told out.new) }
{
    match stage(rt, alloc, shelf, swarm) {
        Ok(staged) => run_staged(rt, alloc, &staged, swarm, shelf, out),
        Err(Stop::Refused(fault)) => ended(2, write_fault(alloc, out, fault)),
        Err(Stop::Halted(halt)) => Err(halt),
    }
}
