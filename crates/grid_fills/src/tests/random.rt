//! The answers of random scripts beside those of the plain program.

ghost use Rattle.std.specs.Prelude.{◌<◌};
ghost use Rattle.plan_model.specs.Limits.{IsSize, IsLevelCount};

use crate::tests::keeper::Keeper;
use height_pyramid::Grid;
use plan_model::{Answer, Entry, Event};
use plan_plain::{PlainAsked, PlainState, are_asked, run};
use std::alloc::{AllocError, Global};
use std::process::Abort;
use std::test::Fail;

// The next number of a generator.
fn next(seed: u64) -> u64 {
    seed.wrapping_mul(6364136223846793005)
        .wrapping_add(1442695040888963407)
}

// A number below n, of a seed.
fn below(seed: u64, n: u32) -> u32
    requires { 0 < n }
    ensures { result < n }
{
    ((seed >> 33) % u64::from(n)) as u32
}

// A coordinate: mostly near the corner, and sometimes anywhere within the limits.
fn coordinate(seed: u64) -> i32 {
    if below(next(seed), 6) == 0 {
        return below(seed, 8388609) as i32 - 4194304;
    }
    below(seed, 81) as i32 - 40
}

// An altitude: mostly 0, and sometimes high.
fn altitude(seed: u64) -> u32 {
    if below(next(seed), 2) == 0 {
        return 0;
    }
    below(seed, 300)
}

// A move of a seed.
fn moved(seed: u64) -> Event {
    Event::Move {
        x: coordinate(seed),
        y: coordinate(next(next(seed))),
        a: altitude(next(next(next(seed)))),
    }
}

// A move of a seed, by a few cells about the corner.
fn moved_a_little(seed: u64) -> Event {
    Event::Move {
        x: below(seed, 9) as i32 - 4,
        y: below(next(next(seed)), 9) as i32 - 4,
        a: 0,
    }
}

// An event of a seed that is no move.
fn work(seed: u64, levels: u8) -> Event
    requires { IsLevelCount levels }
{
    match below(seed, 100) {
        0..2 => Event::Begin,
        2..6 => Event::End,
        6..50 => Event::Claim,
        50..94 => Event::Finish,
        _ => Event::Publish {
            level: below(next(seed), u32::from(levels)) as u8,
        },
    }
}

// An event of a seed.
fn event(seed: u64, levels: u8) -> Event
    requires { IsLevelCount levels }
{
    if below(seed, 100) == 0 {
        return moved(next(seed));
    }
    work(seed, levels)
}

// An event of a seed: a move seldom, and mostly by a few cells.
fn calm_event(seed: u64, levels: u8) -> Event
    requires { IsLevelCount levels }
{
    match below(next(next(seed)), 1000) {
        0..3 => moved_a_little(next(seed)),
        3 => moved(next(seed)),
        _ => work(seed, levels),
    }
}

// The event of a place in rounds in which each pass claims and fills four times, and each level is published.
fn round_event(n: u32, levels: u8) -> Event
    requires { IsLevelCount levels }
{
    match n / 16 % 9 {
        8 => Event::Publish {
            level: (n % 16 % u32::from(levels)) as u8,
        },
        turn if turn % 2 == 0 => Event::Claim,
        _ => Event::Finish,
    }
}

// So many events of a seed.
fn events(alloc: Global, levels: u8, seed: u64, count: u32) -> Result<Vec<PlainAsked>, AllocError>
    requires { IsLevelCount levels }
{
    let mut out = Vec::new(alloc);
    let mut seed = seed;
    'made: for _ in 0..count {
        seed = next(seed);
        let pass = below(next(seed), 16) as u8;
        out.push(PlainAsked {
            pass,
            event: event(seed, levels),
        })?;
    }
    Ok(out)
}

// 10,000 events: so many in rounds, and then calm ones of a seed.
fn calm_events(
    alloc: Global,
    levels: u8,
    seed: u64,
    rounds: u32,
) -> Result<Vec<PlainAsked>, AllocError>
    requires { IsLevelCount levels }
{
    let mut out = Vec::new(alloc);
    'rounds: for n in 0..rounds {
        out.push(PlainAsked {
            pass: (n % 16) as u8,
            event: round_event(n, levels),
        })?;
    }
    let mut seed = seed;
    'made: for _ in rounds..10000 {
        seed = next(seed);
        let pass = below(next(seed), 16) as u8;
        out.push(PlainAsked {
            pass,
            event: calm_event(seed, levels),
        })?;
    }
    Ok(out)
}

// The sample of a terrain at a place.
fn sample(n: u32) -> i16 {
    (next(u64::from(n)) >> 51) as i16
}

// A terrain of hills without a pattern.
fn terrain(rt: &impl Abort, alloc: Global) -> Result<Grid, AllocError> {
    let mut heights = Vec::with_capacity(alloc, 20000)?;
    'made: for n in 0..20000u32 {
        heights.push(sample(n))?;
    }
    assert!(rt; heights.len() == 20000);
    Ok(Grid::new(200, 100, heights))
}

// Takes an event and compares the answer, and the heights of the pass's frame at its beginning and before its end.
fn take(rt: &impl Abort, book: &mut Keeper, entry: &Entry) {
    if matches!(entry.event, Event::End) {
        assert!(rt; entry.pass < 16);
        book.look(rt, entry.pass);
    }
    let answer = book.step(rt, entry.pass, entry.event);
    assert_eq!(rt; answer, entry.answer);
    if matches!(answer, Answer::Frame { .. }) {
        assert!(rt; entry.pass < 16);
        book.look(rt, entry.pass);
    }
}

// Takes the events of a history, and compares each answer.
fn follow(rt: &impl Abort, book: &mut Keeper, history: &[Entry]) {
    for entry in history {
        take(rt, book, entry);
    }
}

// Takes some events, and compares each answer with the plain program's.
fn play(
    rt: &impl Abort,
    alloc: Global,
    k: u8,
    levels: u8,
    events: &[PlainAsked],
) -> Result<(), Fail>
    requires k { IsSize k }
    requires levels { IsLevelCount levels }
{
    assert!(rt; events.len() < 1000000 && are_asked(levels, events));
    let state = PlainState::start(alloc, k, levels)?;
    let left = run(alloc, state, events)?;
    let mut book = Keeper::start(alloc, terrain(rt, alloc)?, k, levels)?;
    follow(rt, &mut book, left.history());
    Ok(())
}

// Plays so many events of a seed.
fn compare(
    rt: &impl Abort,
    alloc: Global,
    k: u8,
    levels: u8,
    seed: u64,
    count: u32,
) -> Result<(), Fail>
    requires k { IsSize k }
    requires levels { IsLevelCount levels }
{
    let events = events(alloc, levels, seed, count)?;
    play(rt, alloc, k, levels, events.as_slice())
}

// Plays 10,000 events: so many in rounds, which fill great windows, and then calm ones of a seed.
fn compare_great(
    rt: &impl Abort,
    alloc: Global,
    k: u8,
    levels: u8,
    seed: u64,
    rounds: u32,
) -> Result<(), Fail>
    requires k { IsSize k }
    requires levels { IsLevelCount levels }
{
    let events = calm_events(alloc, levels, seed, rounds)?;
    play(rt, alloc, k, levels, events.as_slice())
}

#[test]
fn one_level(rt: HostRuntime) -> Result<(), Fail> {
    compare(&rt, rt.alloc(), 4, 1, 1, 10000)?;
    compare(&rt, rt.alloc(), 5, 1, 2, 10000)
}

#[test]
fn some_levels(rt: HostRuntime) -> Result<(), Fail> {
    compare(&rt, rt.alloc(), 4, 3, 3, 10000)?;
    compare(&rt, rt.alloc(), 6, 2, 4, 10000)
}

#[test]
fn twelve_levels(rt: HostRuntime) -> Result<(), Fail> {
    compare(&rt, rt.alloc(), 4, 12, 5, 10000)?;
    compare(&rt, rt.alloc(), 5, 12, 6, 10000)
}

#[test]
fn great_windows(rt: HostRuntime) -> Result<(), Fail> {
    compare(&rt, rt.alloc(), 7, 2, 7, 10000)?;
    compare_great(&rt, rt.alloc(), 7, 3, 9, 5000)
}

#[test]
fn the_greatest_windows(rt: HostRuntime) -> Result<(), Fail> {
    compare_great(&rt, rt.alloc(), 8, 2, 8, 2700)
}

#[test]
fn the_greatest_windows_that_move_often(rt: HostRuntime) -> Result<(), Fail> {
    compare(&rt, rt.alloc(), 8, 2, 8, 10000)
}
