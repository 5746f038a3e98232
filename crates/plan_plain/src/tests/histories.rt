//! Histories, legal and not.

use crate::tests::scripts::{job, region};
use crate::{are_played, moves, places, state_of_history, stops_at};
use plan_model::{Answer, Entry, Event};
use std::test::Fail;

fn entry(pass: u8, event: Event, answer: Answer) -> Entry {
    Entry {
        pass,
        event,
        answer,
    }
}

// A move, and a piece that is claimed and given back.
fn piece() -> [Entry; 3] {
    [
        entry(0, Event::Move { x: 1, y: 1, a: 0 }, Answer::Moved),
        entry(0, Event::Claim, job(0, -1, -1, region(-6, -6, -1, -1), 0)),
        entry(0, Event::Finish, Answer::Kept),
    ]
}

#[test]
fn a_legal_history(rt: HostRuntime) -> Result<(), Fail> {
    assert_eq!(rt; stops_at(rt.alloc(), 4, 1, &piece())?, None);
    assert_eq!(rt; moves(&piece()), 1);
    Ok(())
}

#[test]
fn a_wrong_answer(rt: HostRuntime) -> Result<(), Fail> {
    let [first, second, third] = piece();
    let wrong = entry(0, Event::Finish, Answer::Stale { plan: 0, now: 1 });
    assert_eq!(rt;
        stops_at(rt.alloc(), 4, 1, &[first, second, wrong])?,
        Some(2)
    );
    let other = entry(0, Event::Claim, job(0, -1, -1, region(-6, -6, -1, -1), 1));
    assert_eq!(rt;
        stops_at(rt.alloc(), 4, 1, &[first, other, third])?,
        Some(1)
    );
    Ok(())
}

#[test]
fn events_that_are_not_allowed(rt: HostRuntime) -> Result<(), Fail> {
    let [first, second, third] = piece();
    let again = entry(0, Event::Finish, Answer::Idle);
    assert_eq!(rt;
        stops_at(rt.alloc(), 4, 1, &[first, second, third, again])?,
        Some(3)
    );
    let level = entry(0, Event::Publish { level: 1 }, Answer::Whole);
    assert_eq!(rt; stops_at(rt.alloc(), 4, 1, &[first, level])?, Some(1));
    let pass = entry(16, Event::End, Answer::NoFrame);
    assert_eq!(rt; stops_at(rt.alloc(), 4, 1, &[pass])?, Some(0));
    let high = Event::Move {
        x: 0,
        y: 0,
        a: 1048577,
    };
    let climbs = entry(0, high, Answer::Moved);
    assert_eq!(rt; stops_at(rt.alloc(), 4, 1, &[first, climbs])?, Some(1));
    Ok(())
}

#[test]
fn places_of_jobs_and_frames(rt: HostRuntime) -> Result<(), Fail> {
    let [first, second, third] = piece();
    let begins = entry(3, Event::Begin, Answer::Frame { number: 0 });
    let claimed = [first, second];
    assert!(rt; are_played(1, &claimed));
    assert_eq!(rt; places(rt.alloc(), 4, 1, &claimed)?, 3);
    let framed = [first, second, third, begins];
    assert!(rt; are_played(1, &framed));
    assert_eq!(rt; places(rt.alloc(), 4, 1, &framed)?, 5);
    let state = state_of_history(rt.alloc(), 4, 1, &framed)?;
    assert!(rt; state.is_open(0) && !state.is_open(1));
    Ok(())
}
