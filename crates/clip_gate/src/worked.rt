//! Clips of a small terrain: passes and a full journal.

ghost use Rattle.std.specs.Prelude.{◌≡◌, ◌<◌, IfOk};

use super::*;
use clip_book::{Claimed, Published};
use height_pyramid::Grid;
use std::alloc::Global;
use std::sync::Wait;
use std::test::Fail;
use terrain_store::pack;

// A clip of 3 x 3 heights of 0 metres, in one level, for K = 4.
fn zero_clip(alloc: Global) -> Result<(Clip, Pass), Fail>
    ensures clip { IfOk result (λ both. both.1.clip ≡ both.0) }
    ensures level { IfOk result (λ both. 0 < both.0.land.levels) }
{
    let grid = Grid::new(3, 3, vec![in alloc; 0i16, 0, 0, 0, 0, 0, 0, 0, 0]?);
    let Ok(store) = pack(alloc, &grid, 1) else {
        return Err("no memory".into());
    };
    let shape = store.shape();
    if shape.levels() == 0 {
        return Err("no level".into());
    }
    match Clip::start(alloc, shape, 4) {
        Ok(both) => Ok(both),
        Err(_) => Err("no memory".into()),
    }
}

// Whether a pass splits, and gives a free pass with no number left.
fn splits(clip: &Clip, pass: &mut Pass) -> bool
    requires { pass.old.clip ≡ clip.now }
    ensures { pass.new.clip ≡ pass.old.clip }
{
    match clip.split(pass) {
        Ok(other) => other.is_free() && other.left() == 0,
        Err(PassesOut) => false,
    }
}

// How often of 20 times a pass splits.
fn split_off(clip: &Clip, pass: &mut Pass) -> u32
    requires { pass.old.clip ≡ clip.now }
    ensures { pass.new.clip ≡ pass.old.clip }
{
    let mut count = 0u32;
    for _ in 0..20 {
        count = count.saturating_add(u32::from(splits(clip, pass)));
    }
    count
}

// Whether a publication of level 0 waits for nine pieces.
fn waits(rt: &impl Wait, clip: &Clip, pass: &mut Pass) -> bool
    requires clip { pass.old.clip ≡ clip.now }
    requires level { 0 < clip.now.land.levels }
    ensures { pass.new.clip ≡ pass.old.clip }
{
    match clip.publish(rt, pass, 0) {
        Ok(answer) => answer == Published::Waiting { pieces: 9 },
        Err(_) => false,
    }
}

// How often of so many times a publication waits for nine pieces.
fn publish_often(rt: &impl Wait, clip: &Clip, pass: &mut Pass, times: u32) -> u32
    requires clip { pass.old.clip ≡ clip.now }
    requires level { 0 < clip.now.land.levels }
    ensures { pass.new.clip ≡ pass.old.clip }
{
    let mut count = 0u32;
    for _ in 0..times {
        count = count.saturating_add(u32::from(waits(rt, clip, pass)));
    }
    count
}

#[test]
fn passes_are_split_and_the_journal_is_full(rt: HostRuntime) -> Result<(), Fail> {
    let (clip, mut pass) = zero_clip(rt.alloc())?;
    assert_eq!(rt; (pass.number(), pass.left(), pass.is_free()), (0, 15, true));
    assert_eq!(rt; split_off(&clip, &mut pass), 15);
    assert_eq!(rt; pass.left(), 0);
    assert_eq!(rt; publish_often(&rt, &clip, &mut pass, 1_048_575), 1_048_575);
    assert!(rt;
        matches!(
            clip.claim(&rt, &mut pass),
            Err(JournalFull { limit: 1_048_576 })
        )
    );
    assert_eq!(rt; publish_often(&rt, &clip, &mut pass, 1), 1);
    assert_eq!(rt; publish_often(&rt, &clip, &mut pass, 1), 0);
    match clip.close(pass) {
        Ok((book, journal)) => {
            assert_eq!(rt; (book.moves(), journal.len()), (0, 1_048_576));
            assert!(rt; journal.len() > 7);
            assert_eq!(rt; journal.at(7).pass, 0);
        }
        Err(_) => assert!(rt; false),
    }
    Ok(())
}

#[test]
fn a_pass_is_split_and_claims(rt: HostRuntime) -> Result<(), Fail> {
    let (clip, mut pass) = zero_clip(rt.alloc())?;
    let Ok(mut other) = clip.split(&mut pass) else {
        return Err("no pass".into());
    };
    assert_eq!(rt; (other.number(), other.left(), pass.left()), (1, 0, 14));
    match clip.claim(&rt, &mut other) {
        Ok(Claimed::Job(job)) => assert_eq!(rt; (job.level(), job.plan()), (0, 0)),
        _ => assert!(rt; false),
    }
    assert!(rt; !other.is_free());
    Ok(())
}
