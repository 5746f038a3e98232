//! Turns of a pass: pieces are filled, strips are published, the viewer moves.

ghost use Rattle.std.specs.Prelude.{◌≡◌};
ghost use Rattle.terrain_store.specs.Stores.{land_of};
ghost use Rattle.clip_gate.specs.Calls.{IsFilledOfPass, IsJobOfPass};

use clip_book::{Claimed, FilledJob, Given, Job, Published};
use clip_gate::{Clip, Pass};
use decode_workers::Filler;
use std::sync::Wait;
use terrain_store::Store;

// What a turn came to.
#[derive(Clone, Copy)]
pub(crate) enum Outcome {
    // A piece was filled, and kept.
    Filled,
    // A strip was taken in.
    Grown,
    Neither,
}

// A filled job is given back.
fn give(rt: &impl Wait, clip: &Clip, pass: &mut Pass, job: FilledJob) -> Outcome
    requires clip { pass.old.clip ≡ clip.now }
    requires job { IsFilledOfPass pass.old job }
    ensures { pass.new.clip ≡ pass.old.clip }
{
    match clip.give_back(rt, pass, job) {
        Given::Kept => Outcome::Filled,
        Given::Stale { .. } => Outcome::Neither,
    }
}

// A level is published.
pub(crate) fn publish(
    rt: &impl Wait,
    clip: &Clip,
    store: &Store,
    pass: &mut Pass,
    level: u8,
) -> Outcome
    requires clip { pass.old.clip ≡ clip.now }
    requires land { clip.now.land ≡ land_of store.now }
    ensures { pass.new.clip ≡ pass.old.clip }
{
    if level >= store.shape().levels() {
        return Outcome::Neither;
    }
    match clip.publish(rt, pass, level) {
        Ok(Published::Grown(_)) => Outcome::Grown,
        _ => Outcome::Neither,
    }
}

// A pass's job, filled by the store.
fn filled_by(store: &Store, pass: &Pass, job: Job) -> FilledJob
    requires job { IsJobOfPass pass.now job }
    requires land { pass.now.clip.land ≡ land_of store.now }
    ensures { IsFilledOfPass pass.now result }
{
    store.fill(job)
}

// A pass claims a piece, has it filled by the store and gives it back, or publishes the level that is ripe.
pub(crate) fn turn(rt: &impl Wait, clip: &Clip, store: &Store, pass: &mut Pass) -> Outcome
    requires clip { pass.old.clip ≡ clip.now }
    requires land { clip.now.land ≡ land_of store.now }
    ensures { pass.new.clip ≡ pass.old.clip }
{
    match clip.claim(rt, pass) {
        Ok(Claimed::Job(job)) => {
            let filled = filled_by(store, pass, job);
            give(rt, clip, pass, filled)
        }
        Ok(Claimed::Ripe { level }) => publish(rt, clip, store, pass, level),
        _ => Outcome::Neither,
    }
}

// So many turns. How many of them filled a piece that was kept.
pub(crate) fn turns(rt: &impl Wait, clip: &Clip, store: &Store, pass: &mut Pass, most: u32) -> u32
    requires clip { pass.old.clip ≡ clip.now }
    requires land { clip.now.land ≡ land_of store.now }
    ensures { pass.new.clip ≡ pass.old.clip }
{
    let mut filled = 0u32;
    for _ in 0..most {
        if matches!(turn(rt, clip, store, pass), Outcome::Filled) {
            filled = filled.saturating_add(1);
        }
    }
    filled
}

// The viewer moves to a place near the terrain, on the ground. Whether it did.
pub(crate) fn move_to(rt: &impl Wait, clip: &Clip, pass: &mut Pass, x: u8, y: u8) -> bool
    requires { pass.old.clip ≡ clip.now }
    ensures { pass.new.clip ≡ pass.old.clip }
{
    clip.move_to(rt, pass, i32::from(x), i32::from(y), 0)
        .is_ok()
}
