//! Worked flights.

ghost use Rattle.clip_runs.specs.Courses.{AreWorkers};

use crate::runs::{Left, flight_of, nine, run, script_of};
use clip_runs::Course;
use memchr::memmem;
use std::test::Fail;
use std::thread::Threads;

// Flies over the heights 1 to 9 with so many workers: the windows round a viewer are filled, and a frame is drawn.
fn flown<R: Threads + Sync + AllocGlobal>(rt: &R, workers: u8) -> Result<Left, Fail>
    requires { AreWorkers workers }
{
    let store = nine(rt.alloc(), 1)?;
    let text = b"size 4 1\nmove 1 1\nsettle\nframe\n";
    let script = flight_of(rt.alloc(), text, 1)?;
    let course = Course::Fly {
        script: &script,
        workers,
    };
    run(rt, &store, &course)
}

// How many lines a text has.
fn lines(text: &[u8]) -> usize {
    text.iter().filter(|byte| **byte == b'\n').count()
}

// Whether a text has another in it.
fn has(text: &[u8], piece: &[u8]) -> bool {
    memmem::find(text, piece).is_some()
}

#[test]
fn a_flight_by_one_two_and_fifteen_workers(rt: HostRuntime) -> Result<(), Fail> {
    let tail = "begin 15: frame 0\nclaim 0: idle\nend 15: closed 0 vertices 225 triangles 392\n";
    let store = nine(rt.alloc(), 1)?;
    let single = run(&rt, &store, &Course::Frame { k: 4, x: 1, y: 1 })?;
    for (workers, count) in [(1u8, 23usize), (2, 24), (15, 27)] {
        if 1 <= workers && workers <= 15 {
            let left = flown(&rt, workers)?;
            assert_eq!(rt; lines(left.log()), count);
            assert!(rt; left.log().ends_with(tail.as_bytes()));
            assert_eq!(rt; left.file("out-0.obj"), single.file("out"));
        }
    }
    Ok(())
}

#[test]
fn the_last_piece_for_two_workers(rt: HostRuntime) -> Result<(), Fail> {
    let left = flown(&rt, 2)?;
    let round = "claim 0: job level 0 block 1 1 cells 8 8 8 8 plan 0\n\
        claim 1: held level 0 tile 1 1 pass 0\nfinish 0: kept\npublish 0: grown -6 -6 8 8\n";
    assert!(rt; has(left.log(), round.as_bytes()));
    Ok(())
}

#[test]
fn the_first_round_of_fifteen_workers(rt: HostRuntime) -> Result<(), Fail> {
    let left = flown(&rt, 15)?;
    let round = "move 1 1: moved\nclaim 0: job level 0 block -1 -1 cells -6 -6 -1 -1 plan 0\n\
        claim 1: job level 0 block 0 -1 cells 0 -6 7 -1 plan 0\n\
        claim 2: job level 0 block -1 0 cells -6 0 -1 7 plan 0\n\
        claim 3: job level 0 block 0 0 cells 0 0 7 7 plan 0\n\
        claim 4: held level 0 tile 1 1 pass 0\nfinish 0: kept\n";
    assert!(rt; left.log().starts_with(round.as_bytes()));
    Ok(())
}

// A play of the events that the log of a flight tells, up to the colon of each line.
#[test]
fn a_flight_is_a_play_of_its_events(rt: HostRuntime) -> Result<(), Fail> {
    let store = nine(rt.alloc(), 1)?;
    for workers in [1u8, 2, 3, 15] {
        if 1 <= workers && workers <= 15 {
            let left = flown(&rt, workers)?;
            let mut text = String::from_str(rt.alloc(), "size 4 1\n")?;
            let log = str::from_utf8(left.log()).unwrap_or("");
            for line in log.lines() {
                text.push_str(line.split(':').next().unwrap_or(""))?;
                text.push('\n')?;
            }
            let script = script_of(rt.alloc(), text.as_bytes(), 1)?;
            let played = run(&rt, &store, &Course::Play(&script))?;
            assert_eq!(rt; played.log(), left.log());
            assert_eq!(rt; played.file("out-0.obj"), left.file("out-0.obj"));
        }
    }
    Ok(())
}
