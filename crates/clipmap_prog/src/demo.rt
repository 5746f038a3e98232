//! The command `demo`.
ghost use Rattle.std.specs.Prelude.{◌≡◌, ◌⊎◌, IfErr, IfOk};
ghost use Rattle.terrain_store.specs.Stores.{land_of};
ghost use Rattle.clip_script.specs.Scripts.{fly_view as script_view};
ghost use Rattle.clip_runs.specs.Courses.{IsFlyInRange as IsScriptInRange};
ghost use Rattle.run_actions.specs.declared.halt.Halt.TheVariants.{NoMemory};
ghost use Rattle.clipmap_words.specs.Demo.{demo_view};
ghost use Rattle.clipmap_prog.specs.Demo.{IsFlightOf, demo_outcome, seed_actions};
ghost use Rattle.clipmap_prog.specs.Promise.{Runs};
ghost use Rattle.run_actions.specs.Runs.{HadReason, Ran};

use crate::output::ended;
use clip_runs::{Course, ended_by, run_course};
use clip_script::FlyScript;
use clipmap_words::DemoWords;
use demo_flight::demo_of;
use outer_shelf::{Shelf, Sink};
use run_actions::Halt;
use std::alloc::Global;
use std::thread::Threads;
use terrain_store::{Store, pack};

// The flight of a seed, with the store of its terrain.
#[derive(Drop)]
struct Staged {
    script: FlyScript,
    store: Store,
}

// The flight of a seed, and its terrain, packed.
fn stage(alloc: Global, seed: u64) -> Result<Staged, Halt>
    ensures flight { IfOk result (λ staged. IsFlightOf seed (script_view staged.script) (land_of staged.store)) }
    ensures in_range { IfOk result (λ staged.
        IsScriptInRange (land_of staged.store).levels (script_view staged.script)) }
    ensures wants { IfErr result (λ halt. halt ≡ NoMemory) }
{
    let Ok(demo) = demo_of(alloc, seed) else {
        return Err(Halt::NoMemory);
    };
    match pack(alloc, &demo.terrain, 6) {
        Ok(store) => Ok(Staged {
            script: demo.script,
            store,
        }),
        Err(_) => Err(Halt::NoMemory),
    }
}

// Flies the demo of a seed over its own terrain.
fn fly_seed<R: Threads + Sync, S: Shelf, K: Sink>(
    rt: &R,
    alloc: Global,
    seed: u64,
    shelf: &mut S,
    out: &mut K,
) -> Result<(), Halt>
    ensures ran { Ran S.leaves 0 (seed_actions seed) result
        (S.told shelf.old) (S.told shelf.new) (K.told out.old) (K.told out.new) }
    ensures reason { HadReason result (S.told shelf.old) (S.told shelf.new) (K.told out.old) (K.told out.new) }
{
    let staged = stage(alloc, seed)?;
    let course = Course::Demo {
        seed,
        script: &staged.script,
    };
    ended_by(run_course(rt, alloc, &staged.store, &course, "", shelf, out))
}

// Runs a `demo`. `Ok` is the status 0.
pub(crate) fn run_demo<R: Threads + Sync, S: Shelf, K: Sink>(
    rt: &R,
    alloc: Global,
    demo: &DemoWords,
    shelf: &mut S,
    out: &mut K,
) -> Result<u8, Halt>
    ensures runs { Runs S.leaves (demo_outcome (demo_view demo.now)) result
        (S.told shelf.old) (S.told shelf.new) (K.told out.old) (K.told out.new) }
    ensures status { IfOk result (λ status. (status ≡ 0) ⊎ (status ≡ 2)) }
    ensures reason { HadReason result (S.told shelf.old) (S.told shelf.new) (K.told out.old) (K.told out.new) }
{
    ended(0, fly_seed(rt, alloc, demo.seed, shelf, out))
}
