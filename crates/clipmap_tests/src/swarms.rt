//! Worked examples of `swarm`, over a shelf and a sink in memory.
ghost use Rattle.std.specs.Prelude.{◌<◌};

use memory_runs::{Left, NINE, TILE, line, lines, run, run_swarm};
use outer_shelf::NoMemory;
use std::alloc::Global;
use std::sync::Wait;
use std::test::Fail;
use std::thread::Threads;

// The 3 × 3 tile of the heights 0.
const FLAT: [u8; 18] = [0; 18];

// A swarm of so many workers and renderers over that tile by this script, where calls of the shelf and of the sink with
// these numbers fail.
fn swarmed<R: Threads + Wait + Sync + AllocGlobal>(
    rt: &R,
    passes: (&str, &str),
    script: &str,
    tile: &[u8],
    failing: (&[u64], &[u64]),
) -> Result<Left, NoMemory> {
    let files = [("s", script.as_bytes()), (TILE, tile)];
    let words = ["swarm", passes.0, passes.1, "s", "o", TILE];
    run_swarm(rt, &words, &files, failing.0, failing.1)
}

// The play of what a swarm wrote, over the same tile.
fn played<R: Threads + Sync + AllocGlobal>(
    rt: &R,
    swarm: &Left,
    tile: &[u8],
) -> Result<Left, NoMemory> {
    let files = [("s", swarm.log()), (TILE, tile)];
    run(rt, &["play", "s", "o", TILE], &files)
}

// The file of a frame of that number.
fn frame(alloc: Global, left: &Left, number: u32) -> Result<Option<&[u8]>, Fail> {
    let name = format!(in alloc; "o-{number}.obj")?;
    Ok(left.file(name.as_str()))
}

// Whether the first so many files of frames are the same in both runs.
fn has_same_frames(alloc: Global, swarm: &Left, play: &Left, most: u32) -> Result<bool, Fail> {
    for number in 0..most {
        if frame(alloc, swarm, number)? != frame(alloc, play, number)? {
            return Ok(false);
        }
    }
    Ok(true)
}

// How many lines of a text begin so.
fn lines_that_begin(text: &[u8], front: &[u8]) -> usize {
    text.split(|byte| *byte == b'\n')
        .filter(|line| line.starts_with(front))
        .count()
}

#[test]
fn two_workers_and_a_renderer(rt: HostRuntime) -> Result<(), Fail> {
    let script = "size 4 1\nwork 12 2\nmove 1 1\nmove 3 1\n";
    let left = swarmed(&rt, ("2", "1"), script, &NINE, (&[], &[]))?;
    assert_eq!(rt; left.status, 0);
    let log = left.log();
    assert_eq!(rt; line(log, 0), b"size 4 1".as_slice());
    assert_eq!(rt; lines_that_begin(log, b"move 1 1"), 1);
    assert_eq!(rt; lines_that_begin(log, b"move 3 1"), 1);
    assert_eq!(rt; lines_that_begin(log, b"move "), 2);
    assert_eq!(rt; lines_that_begin(log, b"claim "), 24);
    assert_eq!(rt; lines_that_begin(log, b"begin "), 2);
    let play = played(&rt, &left, &NINE)?;
    assert_eq!(rt; play.status, 0);
    assert!(rt; has_same_frames(rt.alloc(), &left, &play, 3)?);
    Ok(())
}

// One worker with nothing to do, and one that claims three pieces behind a move.
#[test]
fn one_worker(rt: HostRuntime) -> Result<(), Fail> {
    let left = swarmed(&rt, ("1", "0"), "size 4 1\nwork 0 0\n", &FLAT, (&[], &[]))?;
    assert_eq!(rt; left.status, 0);
    assert_eq!(rt; left.log(), b"size 4 1\n".as_slice());
    assert!(rt; left.file("o-0.obj").is_none());

    let script = "size 4 1\nwork 3 0\nmove 1 1\n";
    let left = swarmed(&rt, ("1", "0"), script, &FLAT, (&[], &[]))?;
    assert_eq!(rt; left.status, 0);
    assert_eq!(rt; lines(left.log()), 8);
    assert_eq!(rt; lines_that_begin(left.log(), b"claim 1"), 3);
    assert_eq!(rt; lines_that_begin(left.log(), b"finish 1"), 3);
    assert!(rt; left.file("o-0.obj").is_none());
    Ok(())
}

// The words are judged first, then the script, then how much it asks for, and then the inputs. Nothing is put.
#[test]
fn refuses(rt: HostRuntime) -> Result<(), Fail> {
    let files = [
        ("s", b"size 4 1\nwork 3 1\n".as_slice()),
        ("bad", b"size 4 1\nmove 1 1\n".as_slice()),
        ("much", b"size 8 12\nwork 1 22\n".as_slice()),
        (TILE, NINE.as_slice()),
    ];
    let table: [(&str, &str, &str, &str, u8, &str); 9] = [
        ("1", "1", "t", "x", 2, "fault: Absent t\n"),
        ("1", "1", "bad", "x", 2, "fault: BadLine 2\n"),
        (
            "2",
            "1",
            "much",
            "x",
            2,
            "fault: TooMuch 17301504 16777216\n",
        ),
        ("1", "0", "much", "x", 2, "fault: BadName x\n"),
        ("1", "1", "s", "x", 2, "fault: BadName x\n"),
        ("16", "0", "s", TILE, 1, "fault: words\n"),
        ("0", "1", "s", TILE, 1, "fault: words\n"),
        ("2", "14", "s", TILE, 1, "fault: words\n"),
        ("1", "15", "s", TILE, 1, "fault: words\n"),
    ];
    for (workers, renderers, script, input, status, want) in table {
        let words = ["swarm", workers, renderers, script, "o", input];
        let left = run_swarm(&rt, &words, &files, &[], &[])?;
        assert_eq!(rt; left.status, status);
        assert_eq!(rt; left.log(), want.as_bytes());
        assert!(rt; left.file("o-0.obj").is_none());
    }
    let fly = ["fly", "1", "s", "o", TILE];
    assert_eq!(rt; run_swarm(&rt, &fly, &files, &[], &[])?.status, 1);
    let swarm = ["swarm", "1", "1", "s", "o", TILE];
    assert_eq!(rt; run(&rt, &swarm, &files)?.status, 1);
    Ok(())
}

// The calls of the shelf are the script's fetch, the tile's, and one put for each frame; the sink is called once.
#[test]
fn failing_calls(rt: HostRuntime) -> Result<(), Fail> {
    let script = "size 4 1\nwork 0 2\n";
    for call in 0..2 {
        let left = swarmed(&rt, ("1", "1"), script, &FLAT, (&[call], &[]))?;
        assert_eq!(rt; left.status, 3);
        assert!(rt; left.log().is_empty() && left.file("o-0.obj").is_none());
    }
    let left = swarmed(&rt, ("1", "1"), script, &FLAT, (&[3], &[]))?;
    assert_eq!(rt; left.status, 3);
    assert!(rt; left.log().is_empty());
    assert!(rt; left.file("o-0.obj").is_some() && left.file("o-1.obj").is_none());

    let left = swarmed(&rt, ("1", "1"), script, &FLAT, (&[], &[0]))?;
    assert_eq!(rt; left.status, 4);
    assert!(rt; left.log().is_empty() && left.file("o-1.obj").is_some());

    let left = run_swarm(&rt, &["swarm"], &[], &[], &[0])?;
    assert_eq!(rt; left.status, 4);
    Ok(())
}

// A number below a limit, of a state that goes on.
fn drawn(state: &mut u64, limit: u64) -> u64
    requires { 0 < limit }
    ensures { result < limit }
{
    *state = state
        .wrapping_mul(6364136223846793005)
        .wrapping_add(1442695040888963407);
    (*state >> 33) % limit
}

// A script of some moves that lie near, some of them high up.
fn random_script(alloc: Global, state: &mut u64) -> Result<String, Fail> {
    let claims = 20 + drawn(state, 40);
    let begins = 1 + drawn(state, 4);
    let mut text = format!(in alloc; "size 4 2\nwork {claims} {begins}\n")?;
    for _move in 0..1 + drawn(state, 5) {
        let (x, y, a) = (drawn(state, 40), 1 + drawn(state, 40), drawn(state, 24));
        let line = format!(in alloc; "move {x} -{y} {a}\n")?;
        text.push_str(line.as_str())?;
    }
    Ok(text)
}

// What each of twenty swarms wrote is played, and puts the same files.
#[test]
fn journals_are_played(rt: HostRuntime) -> Result<(), Fail> {
    let alloc = rt.alloc();
    let mut state = 14u64;
    for number in 0..20u64 {
        let script = random_script(alloc, &mut state)?;
        let passes = [("1", "1"), ("2", "1"), ("3", "2"), ("1", "4")];
        let left = swarmed(
            &rt,
            passes[(number % 4) as usize],
            script.as_str(),
            &NINE,
            (&[], &[]),
        )?;
        assert_eq!(rt; left.status, 0);
        let play = played(&rt, &left, &NINE)?;
        assert_eq!(rt; play.status, 0);
        assert!(rt; has_same_frames(alloc, &left, &play, 20)?);
    }
    Ok(())
}
