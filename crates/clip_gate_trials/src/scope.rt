//! Two threads by a scope: one fills the strips that a move asks for, the other draws a frame.

ghost use Rattle.std.specs.Prelude.{◌≡◌, IfSome};
ghost use Rattle.terrain_store.specs.Stores.{land_of};

use crate::frames::{Done, draw};
use crate::journals::judged;
use crate::settings::{Setting, Size, Wrong, nine};
use crate::threads::take_over;
use crate::turns::turns;
use crate::worked::settle_and_move;
use clip_gate::{Clip, Pass};
use std::alloc::Global;
use std::sync::Wait;
use std::thread;
use std::thread::{Promise, Threads};
use terrain_store::Store;

// What a thread gives back is a pass of this clip.
#[derive(Clone, Copy)]
struct OfClip<'a>(&'a Clip);

impl<'a> Promise<Pass> for OfClip<'a> {
    ghost kept_by = { λ promise pass. pass.clip ≡ promise.0.now };
}

// One thread claims pieces, has them filled and gives them back.
fn fill(rt: &impl Wait, clip: &Clip, store: &Store, pass: Pass) -> Pass
    requires clip { pass.clip ≡ clip.now }
    requires land { clip.now.land ≡ land_of store.now }
    ensures { result.clip ≡ clip.now }
{
    let mut pass = pass;
    turns(rt, clip, store, &mut pass, 60);
    pass
}

// The other begins a frame, as soon as no tile of it is out with a job, reads it, makes its text and ends it.
fn draw_one(rt: &impl Wait, alloc: Global, clip: &Clip, pass: Pass, size: Size) -> Option<Done>
    requires { pass.clip ≡ clip.now }
    ensures { IfSome result (λ done. done.pass.clip ≡ clip.now) }
{
    let mut done = Done {
        pass,
        frames: Vec::new(alloc),
    };
    'tries: for _ in 0..400000u32 {
        if draw(rt, alloc, clip, &mut done, size.k)? {
            return Some(done);
        }
        thread::yield_now();
    }
    None
}

// Both at once. Then the pass that draws takes the other over.
fn at_once<R: Threads + Wait + Sync>(
    rt: &R,
    alloc: Global,
    clip: &Clip,
    store: &Store,
    fills: Pass,
    draws: Pass,
    size: Size,
) -> Option<Done>
    requires fills { fills.clip ≡ clip.now }
    requires draws { draws.clip ≡ clip.now }
    requires land { clip.now.land ≡ land_of store.now }
    ensures { IfSome result (λ done. done.pass.clip ≡ clip.now) }
{
    thread::scope(
        thread::scope_env(),
        rt,
        move |scope| -> Option<Done>
            requires { (fills.clip ≡ clip.now) × (draws.clip ≡ clip.now) × (clip.now.land ≡ land_of store.now) }
            ensures { IfSome result (λ done. done.pass.clip ≡ clip.entry.now) }
        {
            let child = scope
                .spawn_with(OfClip(clip), move || fill(rt, clip, store, fills))
                .ok()?;
            let drawn = draw_one(rt, alloc, clip, draws, size);
            let filled = child.join(rt);
            let mut done = drawn?;
            take_over(rt, clip, &mut done.pass, filled)?;
            Some(done)
        },
    )
}

// The pieces of a small terrain are filled and published, the viewer moves, and the two threads run. How many entries
// the journal has.
fn two_by_a_scope<R: Threads + Wait + Sync>(rt: &R, alloc: Global) -> Result<usize, Wrong> {
    let size = Size { k: 5, levels: 1 };
    let grid = nine(alloc)?;
    let Setting {
        store,
        clip,
        mut pass,
    } = Setting::new(alloc, &grid, size)?;
    if !settle_and_move(rt, &clip, &store, &mut pass) {
        return Err(Wrong::Jobs);
    }
    let Ok(other) = clip.split(&mut pass) else {
        return Err(Wrong::NoPass);
    };
    let Some(done) = at_once(rt, alloc, &clip, &store, other, pass, size) else {
        return Err(Wrong::Thread);
    };
    judged(rt, alloc, clip, &store, done, &grid, size)
}

#[test]
fn one_fills_while_the_other_draws(rt: HostRuntime) {
    let entries = two_by_a_scope(&rt, rt.alloc());
    assert!(rt; matches!(entries, Ok(_)), "{entries:?}");
}
