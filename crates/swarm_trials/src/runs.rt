//! Runs of a small swarm, and plays of what it wrote.

ghost use Rattle.std.specs.Prelude.{◌≡◌, ◌+◌, ◌≤◌, IfOk};
ghost use Rattle.terrain_store.specs.Stores.{land_of};

use clip_runs::{Course, run_course};
use clip_script::{SwarmScript, read_play};
use clip_swarm::{SwarmRun, run};
use decode_rounds::Post;
use height_pyramid::Grid;
use outer_shelf::{MemoryShelf, MemorySink};
use std::alloc::Global;
use std::sync::Wait;
use std::test::Fail;
use std::thread::Threads;
use swarm_runs::journal_text;
use terrain_store::{Store, pack};

// The 3 x 3 samples of heights 1 to 9, in a store of one level.
pub fn nine(alloc: Global) -> Result<Store, Fail>
    ensures { IfOk result (λ store. (land_of store).levels ≡ 1) }
{
    let grid = Grid::new(3, 3, vec![in alloc; 1i16, 2, 3, 4, 5, 6, 7, 8, 9]?);
    match pack(alloc, &grid, 1) {
        Ok(store) => Ok(store),
        Err(_) => Err("no memory".into()),
    }
}

// A swarm of so many workers and renderers, of 12 claims and two frames each, without a move.
pub fn swarmed<R: Threads + Wait + Sync, P: Post + Sync>(
    rt: &R,
    alloc: Global,
    store: &Store,
    workers: u8,
    renderers: u8,
    post: &P,
) -> Result<SwarmRun, Fail>
    requires store { (land_of store.now).levels ≡ 1 }
    requires some { 1 ≤ workers }
    requires few { workers + renderers ≤ 15 }
{
    let script = SwarmScript {
        k: 4,
        levels: 1,
        claims: 12,
        begins: 2,
        moves: Vec::new(alloc),
    };
    match run(rt, alloc, store, &script, workers, renderers, post) {
        Ok(run) => Ok(run),
        Err(_) => Err("no memory".into()),
    }
}

// Whether a play of a swarm's history puts the swarm's frames.
pub fn is_played<R: Threads + Sync>(
    rt: &R,
    alloc: Global,
    store: &Store,
    swarm: &SwarmRun,
) -> Result<bool, Fail>
    requires store { (land_of store.now).levels ≡ 1 }
{
    let Ok(text) = journal_text(alloc, 4, 1, &swarm.journal) else {
        return Err("no memory".into());
    };
    let Ok(play) = read_play(alloc, &text) else {
        return Ok(false);
    };
    if play.levels != 1 {
        return Ok(false);
    }
    let Ok(mut shelf) = MemoryShelf::new(alloc, Vec::new(alloc), Vec::new(alloc)) else {
        return Err("no memory".into());
    };
    let mut sink = MemorySink::new(alloc, Vec::new(alloc));
    let status = run_course(
        rt,
        alloc,
        store,
        &Course::Play(&play),
        "o",
        &mut shelf,
        &mut sink,
    );
    for frame in &swarm.frames {
        let number = frame.number();
        let name = format!(in alloc; "o-{number}.obj")?;
        if shelf.file(name.as_str()) != Some(frame.bytes()) {
            return Ok(false);
        }
    }
    Ok(status == 0)
}
