//! Scripts for two levels.

use crate::tests::scripts::{Script, asks, at, check, held, job, moves, region};
use plan_model::{Answer, Event};
use std::test::Fail;

#[test]
fn the_coarser_level_first(rt: HostRuntime) -> Result<(), Fail> {
    let mut script = Script::new(rt.alloc());
    script.rows(&[
        asks(
            0,
            Event::Publish { level: 0 },
            Answer::Waiting { pieces: 9 },
        ),
        asks(
            0,
            Event::Publish { level: 1 },
            Answer::Waiting { pieces: 9 },
        ),
        asks(0, Event::Claim, job(1, -1, -1, region(-6, -6, -1, -1), 0)),
        asks(0, Event::Finish, Answer::Kept),
    ])?;
    script.pairs(0, 1, 8)?;
    script.rows(&[
        asks(0, Event::Claim, Answer::Ripe { level: 1 }),
        asks(
            0,
            Event::Publish { level: 1 },
            Answer::Grown {
                region: region(-6, -6, 8, 8),
            },
        ),
        asks(0, Event::Claim, job(0, -1, -1, region(-6, -6, -1, -1), 0)),
    ])?;
    check(&rt, rt.alloc(), 4, 2, &script)
}

#[test]
fn a_stale_job_holds_a_coarser_tile(rt: HostRuntime) -> Result<(), Fail> {
    let mut script = Script::new(rt.alloc());
    script.rows(&[moves(12, 1)])?;
    script.fills(1, 6, region(0, -6, 14, 8))?;
    script.rows(&[
        moves(16, 1),
        asks(0, Event::Claim, job(1, 1, -1, region(15, -6, 15, -1), 2)),
        moves(12, 1),
        asks(1, Event::Claim, job(1, 0, -1, region(0, -6, 1, -1), 3)),
        asks(1, Event::Finish, Answer::Kept),
    ])?;
    script.jobs(1, &[at(1, 0, 0), at(1, 0, 1)])?;
    script.rows(&[asks(
        0,
        Event::Publish { level: 1 },
        Answer::Grown {
            region: region(0, -6, 14, 8),
        },
    )])?;
    script.jobs(
        1,
        &[
            at(0, 0, -1),
            at(0, 0, 0),
            at(0, 0, 1),
            at(0, 1, 1),
            at(0, 2, 1),
        ],
    )?;
    script.rows(&[
        asks(1, Event::Claim, held(1, 1, 1, 0)),
        asks(0, Event::Finish, Answer::Stale { plan: 2, now: 3 }),
        asks(1, Event::Claim, job(0, 1, -1, region(8, -6, 15, -1), 3)),
    ])?;
    check(&rt, rt.alloc(), 4, 2, &script)
}
