//! Threads that fill, publish and move beside threads that draw frames.

ghost use Rattle.std.specs.Prelude.{◌≡◌, ◌<◌, IfSome};
ghost use Rattle.std.specs.Thread.{IsSync};
ghost use Rattle.terrain_store.specs.Stores.{land_of};

use crate::frames::{Done, draw};
use crate::journals::judged;
use crate::settings::{Setting, Size, Wrong, hills, nine};
use crate::turns::{move_to, turns};
use clip_gate::{Clip, Pass};
use height_pyramid::Grid;
use std::alloc::Global;
use std::sync::Wait;
use std::thread::{Threads, join};
use terrain_store::Store;

// One round of a thread: turns and a move, or a move and a frame.
fn round(
    rt: &impl Wait,
    alloc: Global,
    clip: &Clip,
    store: &Store,
    done: &mut Done,
    size: Size,
    draws: bool,
    number: u8,
) -> Option<bool>
    requires clip { done.old.pass.clip ≡ clip.now }
    requires land { clip.now.land ≡ land_of store.now }
    ensures { done.new.pass.clip ≡ done.old.pass.clip }
{
    if draws {
        move_to(rt, clip, &mut done.pass, number % 32, number % 7);
        return draw(rt, alloc, clip, done, size.k);
    }
    turns(rt, clip, store, &mut done.pass, 10);
    Some(move_to(rt, clip, &mut done.pass, number % 32, number % 7))
}

// All rounds of a thread.
fn work(
    rt: &impl Wait,
    alloc: Global,
    clip: &Clip,
    store: &Store,
    pass: Pass,
    size: Size,
    rounds: u32,
    draws: bool,
) -> Option<Done>
    requires clip { pass.clip ≡ clip.now }
    requires land { clip.now.land ≡ land_of store.now }
    ensures { IfSome result (λ done. done.pass.clip ≡ clip.now) }
{
    let mut done = Done {
        pass,
        frames: Vec::new(alloc),
    };
    for number in 0..rounds {
        round(
            rt,
            alloc,
            clip,
            store,
            &mut done,
            size,
            draws,
            (number % 224) as u8,
        )?;
    }
    Some(done)
}

// A pass takes over another, which has to be free.
pub(crate) fn take_over(rt: &impl Wait, clip: &Clip, pass: &mut Pass, other: Pass) -> Option<()>
    requires clip { pass.old.clip ≡ clip.now }
    requires other { other.clip ≡ clip.now }
    ensures { pass.new.clip ≡ pass.old.clip }
{
    if !other.is_free() {
        return None;
    }
    clip.join(rt, pass, other);
    Some(())
}

// A thread's pass is joined to another, and its frames are put to the others.
fn tie(rt: &impl Wait, clip: &Clip, one: Done, other: Done) -> Option<Done>
    requires one { one.pass.clip ≡ clip.now }
    requires other { other.pass.clip ≡ clip.now }
    ensures { IfSome result (λ done. done.pass.clip ≡ clip.now) }
{
    let mut done = one;
    let Done { pass, mut frames } = other;
    take_over(rt, clip, &mut done.pass, pass)?;
    done.frames.append(&mut frames).ok()?;
    Some(done)
}

// One thread and so many more at once, each with a pass of its own: by turns they fill and draw, and this one draws.
// Then its pass takes the others over.
fn beside<R: Threads + Wait + Sync>(
    rt: &R,
    alloc: Global,
    clip: &Clip,
    store: &Store,
    pass: Pass,
    size: Size,
    rounds: u32,
    more: u8,
) -> Option<Done>
    requires clip { pass.clip ≡ clip.now }
    requires land { clip.now.land ≡ land_of store.now }
    ensures { IfSome result (λ done. done.pass.clip ≡ clip.now) }
{
    if more == 0 {
        return work(rt, alloc, clip, store, pass, size, 20, true);
    }
    let mut pass = pass;
    let other = clip.split(&mut pass).ok()?;
    let theirs = move || -> Option<Done>
        requires { IsSync R.row × (other.clip ≡ clip.now) × (clip.now.land ≡ land_of store.now) }
        ensures { IfSome result (λ done. done.pass.clip ≡ clip.entry.now) }
    {
        if more % 2 == 0 {
            return work(rt, alloc, clip, store, other, size, 20, true);
        }
        work(rt, alloc, clip, store, other, size, rounds, false)
    };
    let mine = move || -> Option<Done>
        requires { IsSync R.row × (0 < more) × (pass.clip ≡ clip.now) × (clip.now.land ≡ land_of store.now) }
        ensures { IfSome result (λ done. done.pass.clip ≡ clip.entry.now) }
    { beside(rt, alloc, clip, store, pass, size, rounds, more - 1) };
    let (theirs, mine) = join(rt, theirs, mine);
    tie(rt, clip, mine?, theirs?)
}

// So many threads beside one, a last frame that no other pass holds up, and what is judged after them.
fn threads<R: Threads + Wait + Sync>(
    rt: &R,
    alloc: Global,
    grid: &Grid,
    size: Size,
    rounds: u32,
    more: u8,
) -> Result<usize, Wrong> {
    let Setting { store, clip, pass } = Setting::new(alloc, grid, size)?;
    let Some(mut done) = beside(rt, alloc, &clip, &store, pass, size, rounds, more) else {
        return Err(Wrong::Thread);
    };
    let Some(true) = draw(rt, alloc, &clip, &mut done, size.k) else {
        return Err(Wrong::Frame);
    };
    judged(rt, alloc, clip, &store, done, grid, size)
}

// Whether so many threads beside one make at least so many entries, which are right.
fn is_enough<R: Threads + Wait + Sync>(
    rt: &R,
    alloc: Global,
    grid: &Grid,
    size: Size,
    rounds: u32,
    more: u8,
    least: usize,
) -> Result<(), Wrong> {
    let entries = threads(rt, alloc, grid, size, rounds, more)?;
    if entries < least {
        return Err(Wrong::Few);
    }
    Ok(())
}

// A terrain of 3 x 3 samples in one level.
fn one_beside_one<R: Threads + Wait + Sync>(rt: &R, alloc: Global) -> Result<(), Wrong> {
    let grid = nine(alloc)?;
    is_enough(rt, alloc, &grid, Size { k: 4, levels: 1 }, 40, 1, 450)
}

// A terrain of 40 x 40 samples in three levels.
fn seven_beside_one<R: Threads + Wait + Sync>(rt: &R, alloc: Global) -> Result<(), Wrong> {
    let grid = hills(alloc)?;
    is_enough(rt, alloc, &grid, Size { k: 4, levels: 3 }, 480, 7, 20000)
}

#[test]
fn one_fills_and_one_draws(rt: HostRuntime) {
    assert_eq!(rt; one_beside_one(&rt, rt.alloc()), Ok(()));
}

#[test]
fn eight_threads_over_three_levels(rt: HostRuntime) {
    assert_eq!(rt; seven_beside_one(&rt, rt.alloc()), Ok(()));
}
