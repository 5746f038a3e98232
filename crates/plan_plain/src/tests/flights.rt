//! Flights.

use crate::tests::scripts::{held, job, region};
use crate::{PlainAsked, flight, fly_events};
use plan_model::{Answer, Entry, Event, FlyLine};
use std::test::Fail;

const SCRIPT: [FlyLine; 3] = [
    FlyLine::Move { x: 1, y: 1, a: 0 },
    FlyLine::Settle,
    FlyLine::Frame,
];

fn entry(pass: u8, event: Event, answer: Answer) -> Entry {
    Entry {
        pass,
        event,
        answer,
    }
}

#[test]
fn one_worker(rt: HostRuntime) -> Result<(), Fail> {
    let run = flight(rt.alloc(), 4, 1, 1, &SCRIPT)?;
    assert_eq!(rt; run.history().len(), 23);
    Ok(())
}

#[test]
fn two_workers(rt: HostRuntime) -> Result<(), Fail> {
    let run = flight(rt.alloc(), 4, 1, 2, &SCRIPT)?;
    assert_eq!(rt; run.history().len(), 24);
    let grown = Answer::Grown {
        region: region(-6, -6, 8, 8),
    };
    let fifth = [
        entry(0, Event::Claim, job(0, 1, 1, region(8, 8, 8, 8), 0)),
        entry(1, Event::Claim, held(0, 1, 1, 0)),
        entry(0, Event::Finish, Answer::Kept),
        entry(0, Event::Publish { level: 0 }, grown),
        entry(15, Event::Begin, Answer::Frame { number: 0 }),
        entry(0, Event::Claim, Answer::Idle),
        entry(15, Event::End, Answer::Closed { number: 0 }),
    ];
    assert_eq!(rt; &run.history()[17..], fifth.as_slice());
    Ok(())
}

#[test]
fn fifteen_workers(rt: HostRuntime) -> Result<(), Fail> {
    let run = flight(rt.alloc(), 4, 1, 15, &SCRIPT)?;
    assert_eq!(rt; run.history().len(), 27);
    let first = [
        entry(0, Event::Move { x: 1, y: 1, a: 0 }, Answer::Moved),
        entry(0, Event::Claim, job(0, -1, -1, region(-6, -6, -1, -1), 0)),
        entry(1, Event::Claim, job(0, 0, -1, region(0, -6, 7, -1), 0)),
        entry(2, Event::Claim, job(0, -1, 0, region(-6, 0, -1, 7), 0)),
        entry(3, Event::Claim, job(0, 0, 0, region(0, 0, 7, 7), 0)),
        entry(4, Event::Claim, held(0, 1, 1, 0)),
    ];
    assert_eq!(rt; &run.history()[..6], first.as_slice());
    Ok(())
}

#[test]
fn a_high_viewer_settles_the_levels_in_use(rt: HostRuntime) -> Result<(), Fail> {
    let script = [FlyLine::Move { x: 1, y: 1, a: 17 }, FlyLine::Settle];
    let run = flight(rt.alloc(), 4, 3, 1, &script)?;
    assert_eq!(rt; run.history().len(), 39);
    let grown = Answer::Grown {
        region: region(-6, -6, 8, 8),
    };
    let last = run.history().last().copied();
    assert_eq!(rt; last, Some(entry(0, Event::Publish { level: 1 }, grown)));
    Ok(())
}

#[test]
fn the_events_of_four_levels_and_two_workers(rt: HostRuntime) -> Result<(), Fail> {
    let script = [FlyLine::Move { x: 1, y: 1, a: 0 }, FlyLine::Settle];
    let events = fly_events(rt.alloc(), 4, 4, 2, &script)?;
    assert_eq!(rt; events.len(), 81);
    let first = [
        PlainAsked {
            pass: 0,
            event: Event::Move { x: 1, y: 1, a: 0 },
        },
        PlainAsked {
            pass: 0,
            event: Event::Claim,
        },
        PlainAsked {
            pass: 1,
            event: Event::Claim,
        },
        PlainAsked {
            pass: 0,
            event: Event::Finish,
        },
    ];
    assert_eq!(rt; &events.as_slice()[..4], first.as_slice());
    Ok(())
}
