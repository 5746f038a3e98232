//! A journal that is filled to its limit, with fifteen passes beside the first, which are then joined to it.

ghost use Rattle.std.specs.Prelude.{◌≡◌};
ghost use Rattle.terrain_store.specs.Stores.{land_of};

use crate::settings::{Setting, Size, Wrong, nine};
use crate::threads::take_over;
use clip_book::Published;
use clip_gate::{Clip, JournalFull, Pass, PassesOut};
use std::alloc::Global;
use std::sync::Wait;
use terrain_store::Store;

// Whether a publication of level 0 waits for nine pieces.
fn waits(rt: &impl Wait, clip: &Clip, store: &Store, pass: &mut Pass) -> bool
    requires clip { pass.old.clip ≡ clip.now }
    requires land { clip.now.land ≡ land_of store.now }
    ensures { pass.new.clip ≡ pass.old.clip }
{
    if store.shape().levels() == 0 {
        return false;
    }
    matches!(
        clip.publish(rt, pass, 0),
        Ok(Published::Waiting { pieces: 9 })
    )
}

// How many of so many publications wait for nine pieces.
fn wait_often(rt: &impl Wait, clip: &Clip, store: &Store, pass: &mut Pass, most: u32) -> u32
    requires clip { pass.old.clip ≡ clip.now }
    requires land { clip.now.land ≡ land_of store.now }
    ensures { pass.new.clip ≡ pass.old.clip }
{
    let mut count = 0u32;
    for _ in 0..most {
        if waits(rt, clip, store, pass) {
            count = count.saturating_add(1);
        }
    }
    count
}

// Whether a claim is refused since only one place is free.
fn claim_is_refused(rt: &impl Wait, clip: &Clip, pass: &mut Pass) -> bool
    requires { pass.old.clip ≡ clip.now }
    ensures { pass.new.clip ≡ pass.old.clip }
{
    matches!(clip.claim(rt, pass), Err(JournalFull { limit: 1_048_576 }))
}

// Whether a pass fills the journal: of two places that a claim asks for, one is free before the last publication.
fn fills_up(rt: &impl Wait, clip: &Clip, store: &Store, pass: &mut Pass) -> bool
    requires clip { pass.old.clip ≡ clip.now }
    requires land { clip.now.land ≡ land_of store.now }
    ensures { pass.new.clip ≡ pass.old.clip }
{
    if wait_often(rt, clip, store, pass, 1_048_575) != 1_048_575 {
        return false;
    }
    if !claim_is_refused(rt, clip, pass) {
        return false;
    }
    waits(rt, clip, store, pass) && !waits(rt, clip, store, pass)
}

// Splits passes off until none is left to give, fills the journal, and joins them: how many there were.
fn fill_beside(rt: &impl Wait, clip: &Clip, store: &Store, pass: &mut Pass, most: u8) -> Option<u8>
    requires clip { pass.old.clip ≡ clip.now }
    requires land { clip.now.land ≡ land_of store.now }
    ensures { pass.new.clip ≡ pass.old.clip }
{
    if most == 0 {
        return None;
    }
    match clip.split(pass) {
        Ok(other) => {
            let count = fill_beside(rt, clip, store, pass, most - 1)?;
            take_over(rt, clip, pass, other)?;
            Some(count.saturating_add(1))
        }
        Err(PassesOut) => {
            if !fills_up(rt, clip, store, pass) {
                return None;
            }
            Some(0)
        }
    }
}

// How many passes there were beside the first, and how many entries the journal has.
fn fifteen_beside_one(rt: &impl Wait, alloc: Global) -> Result<(u8, u32), Wrong> {
    let size = Size { k: 4, levels: 1 };
    let grid = nine(alloc)?;
    let Setting {
        store,
        clip,
        mut pass,
    } = Setting::new(alloc, &grid, size)?;
    let Some(count) = fill_beside(rt, &clip, &store, &mut pass, 20) else {
        return Err(Wrong::NoPass);
    };
    match clip.close(pass) {
        Ok((_, journal)) => Ok((count, journal.len())),
        Err(_) => Err(Wrong::TurnOut),
    }
}

#[test]
fn a_full_journal_and_fifteen_passes(rt: HostRuntime) {
    assert_eq!(rt; fifteen_beside_one(&rt, rt.alloc()), Ok((15, 1_048_576)));
}
