//! A worked frame of one level beside ten jobs, a pass that goes to a thread and back, and a pass that is dropped.

ghost use Rattle.std.specs.Prelude.{◌≡◌};
ghost use Rattle.std.specs.Thread.{IsSync};
ghost use Rattle.terrain_store.specs.Stores.{land_of};

use crate::frames::{begin, ends, has_zeros};
use crate::journals::closed;
use crate::settings::{Setting, Size, Wrong, nine};
use crate::threads::take_over;
use crate::turns::{Outcome, move_to, publish, turn, turns};
use clip_book::Claimed;
use clip_gate::{Clip, Pass};
use std::alloc::Global;
use std::sync::Wait;
use std::thread::{Threads, join};
use terrain_store::Store;

// All 25 pieces are filled and published, and the viewer moves to column 25 and row 1: whether it went so.
pub(crate) fn settle_and_move(rt: &impl Wait, clip: &Clip, store: &Store, pass: &mut Pass) -> bool
    requires clip { pass.old.clip ≡ clip.now }
    requires land { clip.now.land ≡ land_of store.now }
    ensures { pass.new.clip ≡ pass.old.clip }
{
    if turns(rt, clip, store, pass, 25) != 25 {
        return false;
    }
    if !matches!(publish(rt, clip, store, pass, 0), Outcome::Grown) {
        return false;
    }
    move_to(rt, clip, pass, 25, 1)
}

// Ten pieces are filled, and then a claim is refused for a frame that draws the cells.
fn fills_ten(rt: &impl Wait, clip: &Clip, store: &Store, pass: &mut Pass) -> bool
    requires clip { pass.old.clip ≡ clip.now }
    requires land { clip.now.land ≡ land_of store.now }
    ensures { pass.new.clip ≡ pass.old.clip }
{
    if turns(rt, clip, store, pass, 10) != 10 {
        return false;
    }
    matches!(clip.claim(rt, pass), Ok(Claimed::Busy { level: 0, .. }))
}

// A pass begins frame 0, another fills ten pieces beside it, and level 0 of the frame has 217 heights, all 0.
fn draws_beside(
    rt: &impl Wait,
    alloc: Global,
    clip: &Clip,
    store: &Store,
    pass: &mut Pass,
    other: &mut Pass,
) -> bool
    requires clip { pass.old.clip ≡ clip.now }
    requires other_clip { other.old.clip ≡ clip.now }
    requires land { clip.now.land ≡ land_of store.now }
    ensures clip { pass.new.clip ≡ pass.old.clip }
    ensures other_clip { other.new.clip ≡ other.old.clip }
{
    let Some(note) = begin(rt, clip, pass) else {
        return false;
    };
    if !fills_ten(rt, clip, store, other) || !has_zeros(rt, alloc, clip, pass, &note, 217) {
        return false;
    }
    ends(rt, clip, pass, 0)
}

// The worked frame. How many entries the journal has.
fn ten_jobs(rt: &impl Wait, alloc: Global) -> Result<usize, Wrong> {
    let size = Size { k: 5, levels: 1 };
    let grid = nine(alloc)?;
    let Setting {
        store,
        clip,
        mut pass,
    } = Setting::new(alloc, &grid, size)?;
    let Ok(mut other) = clip.split(&mut pass) else {
        return Err(Wrong::NoPass);
    };
    if !settle_and_move(rt, &clip, &store, &mut pass) {
        return Err(Wrong::Jobs);
    }
    if !draws_beside(rt, alloc, &clip, &store, &mut pass, &mut other) {
        return Err(Wrong::Frame);
    }
    let Some(()) = take_over(rt, &clip, &mut pass, other) else {
        return Err(Wrong::NoPass);
    };
    Ok(closed(alloc, clip, pass, size)?.len())
}

#[test]
fn ten_jobs_beside_a_frame(rt: HostRuntime) {
    assert_eq!(rt; ten_jobs(&rt, rt.alloc()), Ok(75));
}

// A pass goes to a thread and comes back.
fn by_thread<R: Threads + Wait + Sync>(rt: &R, clip: &Clip, store: &Store, pass: Pass) -> Pass
    requires clip { pass.clip ≡ clip.now }
    requires land { clip.now.land ≡ land_of store.now }
    ensures { result.clip ≡ clip.now }
{
    let theirs = move || -> Pass
        requires { IsSync R.row × (pass.clip ≡ clip.now) × (clip.now.land ≡ land_of store.now) }
        ensures { result.clip ≡ clip.entry.now }
    {
        let mut pass = pass;
        turns(rt, clip, store, &mut pass, 5);
        pass
    };
    let (pass, _) = join(rt, theirs, || {});
    pass
}

// Nine pieces, of which a thread fills five, and the strip. How many entries the journal has.
fn there_and_back<R: Threads + Wait + Sync>(rt: &R, alloc: Global) -> Result<usize, Wrong> {
    let size = Size { k: 4, levels: 1 };
    let grid = nine(alloc)?;
    let Setting {
        store,
        clip,
        mut pass,
    } = Setting::new(alloc, &grid, size)?;
    turns(rt, &clip, &store, &mut pass, 2);
    let mut pass = by_thread(rt, &clip, &store, pass);
    if turns(rt, &clip, &store, &mut pass, 2) != 2 {
        return Err(Wrong::Jobs);
    }
    if !matches!(turn(rt, &clip, &store, &mut pass), Outcome::Grown) {
        return Err(Wrong::Jobs);
    }
    Ok(closed(alloc, clip, pass, size)?.len())
}

#[test]
fn a_pass_on_a_thread_and_back(rt: HostRuntime) {
    assert_eq!(rt; there_and_back(&rt, rt.alloc()), Ok(20));
}

// A pass that is dropped with a frame holds up nobody, and its entry stays. How many entries the journal has.
fn without_it(rt: &impl Wait, alloc: Global) -> Result<usize, Wrong> {
    let size = Size { k: 4, levels: 1 };
    let grid = nine(alloc)?;
    let Setting {
        store,
        clip,
        mut pass,
    } = Setting::new(alloc, &grid, size)?;
    let Ok(mut other) = clip.split(&mut pass) else {
        return Err(Wrong::NoPass);
    };
    if begin(rt, &clip, &mut other).is_none() {
        return Err(Wrong::Frame);
    }
    drop(other);
    if turns(rt, &clip, &store, &mut pass, 9) != 9 {
        return Err(Wrong::Jobs);
    }
    Ok(closed(alloc, clip, pass, size)?.len())
}

#[test]
fn a_pass_that_is_dropped(rt: HostRuntime) {
    assert_eq!(rt; without_it(&rt, rt.alloc()), Ok(19));
}
