//! Runs of small swarms.

ghost use Rattle.std.specs.Prelude.{◌≡◌, IfOk};
ghost use Rattle.terrain_store.specs.Stores.{land_of};

use crate::{SwarmRun, run};
use clip_script::SwarmScript;
use decode_rounds::Quiet;
use height_pyramid::Grid;
use plan_model::{Answer, Event};
use std::alloc::Global;
use std::sync::Wait;
use std::test::Fail;
use std::thread::Threads;
use terrain_store::{Store, pack};

// The 3 x 3 samples of heights 1 to 9, in a store of one level.
fn nine(alloc: Global) -> Result<Store, Fail>
    ensures { IfOk result (λ store. (land_of store).levels ≡ 1) }
{
    let grid = Grid::new(3, 3, vec![in alloc; 1i16, 2, 3, 4, 5, 6, 7, 8, 9]?);
    match pack(alloc, &grid, 1) {
        Ok(store) => Ok(store),
        Err(_) => Err("no memory".into()),
    }
}

// How many entries of a journal have this event.
fn count(run: &SwarmRun, event: Event) -> usize {
    let mut count = 0usize;
    for place in 0..run.journal.len() {
        if run.journal.at(place).event == event {
            count = count.saturating_add(1);
        }
    }
    count
}

#[test]
fn two_workers_and_a_renderer(rt: HostRuntime) -> Result<(), Fail> {
    let alloc = rt.alloc();
    let store = nine(alloc)?;
    let script = SwarmScript {
        k: 4,
        levels: 1,
        claims: 12,
        begins: 2,
        moves: vec![in alloc; (1, 1, 0), (3, 1, 0)]?,
    };
    let run = run(&rt, alloc, &store, &script, 2, 1, &Quiet)?;
    assert!(rt; !run.full);
    assert_eq!(rt; count(&run, Event::Claim), 24);
    assert_eq!(rt; count(&run, Event::Begin), 2);
    assert_eq!(rt; count(&run, Event::Move { x: 1, y: 1, a: 0 }), 1);
    assert_eq!(rt; count(&run, Event::End), run.frames.len());
    Ok(())
}

// One worker, no renderer, no claim and no move.
#[test]
fn nothing_to_do(rt: HostRuntime) -> Result<(), Fail> {
    let alloc = rt.alloc();
    let store = nine(alloc)?;
    let script = SwarmScript {
        k: 4,
        levels: 1,
        claims: 0,
        begins: 0,
        moves: Vec::new(alloc),
    };
    let run = run(&rt, alloc, &store, &script, 1, 0, &Quiet)?;
    assert!(rt; !run.full && run.frames.is_empty());
    assert_eq!(rt; run.journal.len(), 0);
    Ok(())
}

// One worker claims more than a journal has room for.
#[test]
fn a_journal_that_is_full(rt: HostRuntime) -> Result<(), Fail> {
    let alloc = rt.alloc();
    let store = nine(alloc)?;
    let script = SwarmScript {
        k: 4,
        levels: 1,
        claims: 1_048_577,
        begins: 0,
        moves: Vec::new(alloc),
    };
    let run = run(&rt, alloc, &store, &script, 1, 0, &Quiet)?;
    assert!(rt; run.full);
    assert_eq!(rt; run.journal.len(), 1_048_575);
    Ok(())
}
