//! A book that is settled.

use crate::BookPlan;
use plan_model::{Answer, Event};
use plan_plain::is_taken;
use std::alloc::Global;
use std::process::Abort;
use std::test::Fail;

// An event of a pass that a plan can take is taken, and its answer told.
fn take(rt: &impl Abort, book: &mut BookPlan, pass: u8, event: Event) -> Answer {
    assert!(rt; pass < 16 && is_taken(book.levels(), event));
    assert!(rt; book.moves() < 1099511627776 && book.begun() < 1099511627776);
    book.step(pass, event)
}

// Claims and gives back, and publishes what is ripe, at most so many times. It gives the count of pieces.
fn settle(rt: &impl Abort, book: &mut BookPlan, most: u32) -> u32 {
    let mut pieces = 0u32;
    'turns: for _ in 0..most {
        match take(rt, book, 0, Event::Claim) {
            Answer::Job { .. } => {
                take(rt, book, 0, Event::Finish);
                pieces = pieces.saturating_add(1);
            }
            Answer::Ripe { level } => {
                take(rt, book, 0, Event::Publish { level });
            }
            _ => return pieces,
        }
    }
    pieces
}

// A plan is shared by threads with the book that has it.
fn is_shared<T: Sync>(_value: &T) {}

fn moves<T: Send>(_value: &T) {}

#[test]
fn the_greatest_book_is_settled(rt: HostRuntime) -> Result<(), Fail> {
    let Ok(mut book) = BookPlan::start(rt.alloc(), 8, 12) else {
        return Err("no memory".into());
    };
    moves(&book);
    is_shared(&book);
    // The window of a level has 33 times 33 pieces.
    assert_eq!(rt; settle(&rt, &mut book, 20000), 13068);
    assert_eq!(rt; take(&rt, &mut book, 0, Event::Claim), Answer::Idle);
    assert_eq!(rt; book.levels(), 12);
    assert_eq!(rt; (book.unfinished(0), book.filled(11).x1), (None, 128));
    Ok(())
}
