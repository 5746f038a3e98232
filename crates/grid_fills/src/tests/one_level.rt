//! Scripts for one level.

use crate::tests::scripts::{Script, asks, at, busy, check, held, job, moves, region};
use plan_model::{Answer, Event};
use std::test::Fail;

#[test]
fn idle_passes_and_an_empty_frame(rt: HostRuntime) -> Result<(), Fail> {
    let mut script = Script::new(rt.alloc());
    script.rows(&[
        asks(3, Event::Finish, Answer::Idle),
        asks(3, Event::End, Answer::NoFrame),
        asks(0, Event::Begin, Answer::Frame { number: 0 }),
        asks(0, Event::Begin, Answer::HasWork),
        asks(0, Event::Claim, Answer::HasWork),
        asks(0, Event::End, Answer::Closed { number: 0 }),
    ])?;
    check(&rt, rt.alloc(), 4, 1, &script)
}

#[test]
fn a_strip_after_a_move(rt: HostRuntime) -> Result<(), Fail> {
    let mut script = Script::new(rt.alloc());
    script.fills(0, 9, region(-6, -6, 8, 8))?;
    script.rows(&[
        moves(3, 1),
        asks(0, Event::Claim, job(0, 1, -1, region(9, -6, 10, -1), 1)),
        asks(1, Event::Begin, held(0, 1, 1, 0)),
        asks(0, Event::Finish, Answer::Kept),
    ])?;
    script.fills(0, 2, region(-4, -6, 10, 8))?;
    script.rows(&[moves(3, 1), asks(0, Event::Claim, Answer::Idle)])?;
    check(&rt, rt.alloc(), 4, 1, &script)
}

#[test]
fn two_frames_pin_a_tile(rt: HostRuntime) -> Result<(), Fail> {
    let mut script = Script::new(rt.alloc());
    script.rows(&[moves(1, 1)])?;
    script.fills(0, 9, region(-6, -6, 8, 8))?;
    script.rows(&[
        asks(0, Event::Begin, Answer::Frame { number: 0 }),
        asks(1, Event::Begin, Answer::Frame { number: 1 }),
        moves(41, 1),
        asks(2, Event::Claim, busy(0, 0, 1, 0)),
        asks(0, Event::End, Answer::Closed { number: 0 }),
        asks(2, Event::Claim, busy(0, 0, 1, 1)),
        asks(1, Event::End, Answer::Closed { number: 1 }),
        asks(2, Event::Claim, job(0, 4, -1, region(34, -6, 39, -1), 1)),
    ])?;
    check(&rt, rt.alloc(), 4, 1, &script)
}

#[test]
fn a_stale_job(rt: HostRuntime) -> Result<(), Fail> {
    let mut script = Script::new(rt.alloc());
    script.rows(&[
        asks(0, Event::Claim, job(0, -1, -1, region(-6, -6, -1, -1), 0)),
        moves(41, 1),
        moves(1, 1),
        asks(0, Event::Finish, Answer::Stale { plan: 0, now: 2 }),
        asks(0, Event::Claim, job(0, -1, -1, region(-6, -6, -1, -1), 2)),
    ])?;
    check(&rt, rt.alloc(), 4, 1, &script)
}

#[test]
fn a_window_filled_piece_by_piece(rt: HostRuntime) -> Result<(), Fail> {
    let publish = Event::Publish { level: 0 };
    let mut script = Script::new(rt.alloc());
    script.rows(&[asks(0, publish, Answer::Waiting { pieces: 9 })])?;
    script.pairs(0, 0, 8)?;
    script.rows(&[
        asks(0, publish, Answer::Waiting { pieces: 1 }),
        asks(0, Event::Claim, job(0, 1, 1, region(8, 8, 8, 8), 0)),
        asks(1, Event::Claim, held(0, 1, 1, 0)),
        asks(0, Event::Finish, Answer::Kept),
        asks(0, Event::Claim, Answer::Ripe { level: 0 }),
        asks(
            0,
            publish,
            Answer::Grown {
                region: region(-6, -6, 8, 8),
            },
        ),
        asks(0, publish, Answer::Whole),
        asks(0, Event::Claim, Answer::Idle),
    ])?;
    check(&rt, rt.alloc(), 4, 1, &script)
}

#[test]
fn a_frame_over_a_move_and_back(rt: HostRuntime) -> Result<(), Fail> {
    let mut script = Script::new(rt.alloc());
    script.rows(&[moves(1, 1)])?;
    script.fills(0, 9, region(-6, -6, 8, 8))?;
    script.rows(&[
        asks(0, Event::Begin, Answer::Frame { number: 0 }),
        moves(1001, 1),
        moves(1, 1),
        asks(0, Event::End, Answer::Closed { number: 0 }),
        asks(1, Event::Claim, job(0, -1, -1, region(-6, -6, -1, -1), 2)),
    ])?;
    check(&rt, rt.alloc(), 4, 1, &script)
}

#[test]
fn a_frame_that_leaves_ten_jobs(rt: HostRuntime) -> Result<(), Fail> {
    let mut script = Script::new(rt.alloc());
    script.fills(0, 25, region(-14, -14, 16, 16))?;
    script.rows(&[
        moves(25, 1),
        asks(0, Event::Begin, Answer::Frame { number: 0 }),
        asks(1, Event::Claim, job(0, 3, -2, region(24, -14, 31, -9), 1)),
        asks(1, Event::Finish, Answer::Kept),
    ])?;
    script.jobs(
        1,
        &[
            at(0, 4, -2),
            at(0, 3, -1),
            at(0, 4, -1),
            at(0, 3, 0),
            at(0, 4, 0),
            at(0, 3, 1),
            at(0, 4, 1),
            at(0, 3, 2),
            at(0, 4, 2),
        ],
    )?;
    script.rows(&[
        asks(1, Event::Claim, busy(0, 2, 2, 0)),
        asks(0, Event::End, Answer::Closed { number: 0 }),
    ])?;
    check(&rt, rt.alloc(), 5, 1, &script)
}
