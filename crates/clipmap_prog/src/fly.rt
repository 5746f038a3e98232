//! The command `fly`.
ghost use Rattle.std.specs.Prelude.{◌≡◌, ◌≤◌, ◌⊎◌, IfOk, IfSome, length, option_map};
ghost use Rattle.std.specs.FinMap as finite;
ghost use Rattle.outer_shelf.specs.Counts.{Rose, one_more};
ghost use Rattle.terrain_store.specs.Stores.{land_of};
ghost use Rattle.clip_script.specs.Ranges.{AreSizes};
ghost use Rattle.clip_script.specs.Scripts.{fly_view as script_view};
ghost use Rattle.clip_runs.specs.Courses.{AreWorkers, IsFlyInRange as IsScriptInRange};
ghost use Rattle.clipmap_words.specs.Fly.{IsFlyInRange, fly_view};
ghost use Rattle.clipmap_prog.specs.Fly.{read_fly, flown, fly_outcome, fly_reading, stage_view};
ghost use Rattle.clipmap_prog.specs.Scripts.{script_of_file};
ghost use Rattle.clipmap_prog.specs.Promise.{Runs};
ghost use Rattle.clipmap_prog.specs.Reading.{Finds, OnStop};
ghost use Rattle.run_actions.specs.Runs.{CallsWithin, HadReason, Ran};
ghost use Rattle.clipmap_prog.specs.Stores.{ByVerdict, Verdict};

use crate::fault::{Fault, FileFault};
use crate::grounds::read_land;
use crate::output::{ended, write_fault};
use crate::play::SCRIPT_LIMIT;
use crate::reading::Stop;
use clip_runs::{Course, ended_by, run_course};
use clip_script::{FlyScript, ScriptFault, read_fly};
use clipmap_words::FlyWords;
use outer_shelf::{Fetched, Shelf, Sink};
use run_actions::Halt;
use std::alloc::Global;
use std::thread::Threads;
use terrain_store::Store;

// A script with the store that it is flown over.
#[derive(Drop)]
pub(crate) struct Staged {
    pub(crate) script: FlyScript,
    pub(crate) store: Store,
}

// The script of the bytes of a file, if they are one.
fn judge_script<'a>(alloc: Global, bytes: &[u8]) -> Result<FlyScript, Stop<'a>>
    ensures found { Finds script_view result (read_fly bytes.now) }
    ensures in_range { IfOk result (λ script. IsScriptInRange script.levels (script_view script)) }
    ensures reason { OnStop result ⊥ }
{
    match read_fly(alloc, bytes) {
        Ok(script) => Ok(script),
        Err(ScriptFault::NoMemory) => Err(Stop::Halted(Halt::NoMemory)),
        Err(fault) => Err(Stop::Refused(Fault::Script(fault))),
    }
}

// The script of the file of that name, by one fetch.
fn fetch_script<'a, S: Shelf>(
    alloc: Global,
    shelf: &mut S,
    name: &'a str,
) -> Result<FlyScript, Stop<'a>>
    ensures found { IfSome (S.told shelf.old).files (λ files. Finds script_view result
        (script_of_file read_fly name.now (finite.get files name.now))) }
    ensures in_range { IfOk result (λ script. IsScriptInRange script.levels (script_view script)) }
    ensures counted { (S.told shelf.new).calls ≡ option_map one_more (S.told shelf.old).calls }
    ensures reason { OnStop result (Rose (S.told shelf.old).faults (S.told shelf.new).faults) }
    ensures files_stay { (S.told shelf.new).files ≡ (S.told shelf.old).files }
    ensures faults_stay { (S.told shelf.old).faults ≤ (S.told shelf.new).faults }
{
    match shelf.fetch(alloc, name, SCRIPT_LIMIT) {
        Fetched::Found(bytes) => judge_script(alloc, bytes.as_slice()),
        Fetched::Absent => Err(Stop::Refused(Fault::File(name, FileFault::Absent))),
        Fetched::TooLong { length, limit } => {
            let fault = FileFault::TooLong { length, limit };
            Err(Stop::Refused(Fault::File(name, fault)))
        }
        Fetched::Failed => Err(Stop::Halted(Halt::ShelfFailed)),
        Fetched::NoMemory => Err(Stop::Halted(Halt::NoMemory)),
    }
}

// The script of a `fly`, and then its inputs.
fn stage<'a, R: Threads + Sync, S: Shelf>(
    rt: &R,
    alloc: Global,
    shelf: &mut S,
    fly: &FlyWords<'a>,
) -> Result<Staged, Stop<'a>>
    requires few_inputs { length fly.now.inputs.now ≤ 64 }

    // It finds what the definition's reading finds, by as many calls at most.
    ensures found { ByVerdict (fly_view fly.now).inputs (S.told shelf.old).files
        (λ verdict. IfSome (S.told shelf.old).files (λ files. Finds stage_view result
        (fly_reading verdict (fly_view fly.now) files).found)) }
    ensures calls { (verdict : Verdict) → IfSome (S.told shelf.old).files
        (λ files. CallsWithin (fly_reading verdict (fly_view fly.now) files).fetches
        (S.told shelf.old).calls (S.told shelf.new).calls) }

    // The script is in range for the terrain's levels.
    ensures in_range { IfOk result (λ staged.
        IsScriptInRange (land_of staged.store).levels (script_view staged.script)) }

    // A stop has a reason, and no file changes.
    ensures reason { OnStop result (Rose (S.told shelf.old).faults (S.told shelf.new).faults) }
    ensures files_stay { (S.told shelf.new).files ≡ (S.told shelf.old).files }
    ensures faults_stay { (S.told shelf.old).faults ≤ (S.told shelf.new).faults }
{
    let script = fetch_script(alloc, shelf, fly.script)?;
    let store = read_land(rt, alloc, shelf, fly.inputs, script.levels)?;
    Ok(Staged { script, store })
}

// Flies a script over a store, under a name.
fn fly_staged<R: Threads + Sync, S: Shelf, K: Sink>(
    rt: &R,
    alloc: Global,
    staged: &Staged,
    workers: u8,
    name: &str,
    shelf: &mut S,
    out: &mut K,
) -> Result<(), Halt>
    requires workers { AreWorkers workers }
    requires in_range { IsScriptInRange (land_of staged.now.store).levels (script_view staged.now.script) }
    ensures ran { Ran S.leaves 0 (flown workers name.now (stage_view staged.now)) result
        (S.told shelf.old) (S.told shelf.new) (K.told out.old) (K.told out.new) }
    ensures reason { HadReason result (S.told shelf.old) (S.told shelf.new) (K.told out.old) (K.told out.new) }
{
    let course = Course::Fly {
        script: &staged.script,
        workers,
    };
    ended_by(run_course(rt, alloc, &staged.store, &course, name, shelf, out))
}

// Runs a `fly`. `Ok` is the status: 0 where it is done, and 2 where it is refused and the line of its
// fault is written.
pub(crate) fn run_fly<R: Threads + Sync, S: Shelf, K: Sink>(
    rt: &R,
    alloc: Global,
    fly: &FlyWords<'_>,
    shelf: &mut S,
    out: &mut K,
) -> Result<u8, Halt>
    requires in_range { IsFlyInRange (fly_view fly.now) }
    ensures runs { ByVerdict (fly_view fly.now).inputs (S.told shelf.old).files
        (λ verdict. Runs S.leaves (fly_outcome verdict (fly_view fly.now)) result
        (S.told shelf.old) (S.told shelf.new) (K.told out.old) (K.told out.new)) }
    ensures status { IfOk result (λ status. (status ≡ 0) ⊎ (status ≡ 2)) }
    ensures reason { HadReason result (S.told shelf.old) (S.told shelf.new) (K.told out.old) (K.told out.new) }
{
    match stage(rt, alloc, shelf, fly) {
        Ok(staged) => ended(
            0,
            fly_staged(rt, alloc, &staged, fly.workers, fly.out, shelf, out),
        ),
        Err(Stop::Refused(fault)) => ended(2, write_fault(alloc, out, fault)),
        Err(Stop::Halted(halt)) => Err(halt),
    }
}
