//! Scripts with a high viewer, which leaves the finest level out.

use crate::tests::scripts::{Script, asks, check, climbs, job, moves, region};
use plan_model::{Answer, Event};
use std::test::Fail;

#[test]
fn the_finest_level_is_left_out_and_comes_back(rt: HostRuntime) -> Result<(), Fail> {
    let mut script = Script::new(rt.alloc());
    script.rows(&[
        climbs(1, 1, 17),
        asks(0, Event::Claim, job(1, -1, -1, region(-6, -6, -1, -1), 0)),
        asks(0, Event::Finish, Answer::Kept),
    ])?;
    script.fills(1, 8, region(-6, -6, 8, 8))?;
    script.rows(&[
        asks(0, Event::Claim, Answer::Idle),
        asks(0, Event::Publish { level: 0 }, Answer::Whole),
        asks(0, Event::Begin, Answer::Frame { number: 0 }),
        asks(0, Event::End, Answer::Closed { number: 0 }),
        moves(1, 1),
        asks(0, Event::Claim, job(0, -1, -1, region(-6, -6, -1, -1), 2)),
        climbs(1, 1, 17),
        asks(0, Event::Finish, Answer::Stale { plan: 2, now: 3 }),
    ])?;
    check(&rt, rt.alloc(), 4, 2, &script)
}

#[test]
fn at_the_limit_the_finest_level_is_in_use(rt: HostRuntime) -> Result<(), Fail> {
    let mut script = Script::new(rt.alloc());
    script.rows(&[climbs(1, 1, 16)])?;
    script.fills(1, 9, region(-6, -6, 8, 8))?;
    script.rows(&[asks(0, Event::Claim, job(0, -1, -1, region(-6, -6, -1, -1), 0))])?;
    check(&rt, rt.alloc(), 4, 2, &script)
}
