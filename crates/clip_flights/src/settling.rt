//! A settling: rounds until every level in use is whole.

ghost use Rattle.std.specs.Prelude.{◌≡◌, ◌<◌, ◌≤◌, ◌^◌, IsTrue, OnOk, length};
ghost use Rattle.plan_model.specs.Rounds.{cells_to_fill, is_settled, rounds, settle, unfilled_cells};
ghost use Rattle.clip_regions.specs.Regions.{IsPlaced};
ghost use Rattle.plan_model.specs.States.{is_whole, window_at};
ghost use Rattle.plan_flights.specs.Flights.{IsAtRest};
ghost use Rattle.clip_desk.specs.Desks.{Stays};
ghost use Rattle.clip_rounds.specs.Parts.{Flew, place_of};

use clip_book::Book;
use clip_desk::Means;
use clip_regions::Region;
use clip_rounds::{Flight, fly_round};
use decode_workers::Filler;
use level_frame::window;
use outer_shelf::{Shelf, Sink};
use plan_flights::{laws_below, settles_end};
use plan_sound::filled_regions_are_near;
use run_actions::Halt;
use std::thread::Threads;

// The window of a level.
fn window_of(book: &Book, level: u8) -> Region
    requires rest { IsAtRest book.now.plan.state }
    requires level { level < length book.now.plan.state.levels }
    ensures value { result ≡ window_at book.now.plan.state level }
    ensures placed { IsPlaced result }
{
    let (x, y) = book.viewer();
    window(book.k(), level, x, y)
}

// Whether the filled region of a level is its window.
#[tactic(auto, unfolding(plan_model::specs::States::is_whole, plan_model::specs::States::same_region))]
fn is_whole(book: &Book, level: u8) -> bool
    requires rest { IsAtRest book.now.plan.state }
    requires level { level < length book.now.plan.state.levels }
    ensures { result ≡ is_whole book.now.plan.state level }
{
    let filled = book.filled(level);
    let window = window_of(book, level);
    filled.holds(window) && window.holds(filled)
}

// Whether the filled region of every level in use is its window.
fn is_settled(book: &Book) -> bool
    requires { IsAtRest book.now.plan.state }
    ensures { result ≡ is_settled book.now.plan.state }
{
    let mut settled = true;
    for level in book.finest()..book.levels() {
        let whole = is_whole(book, level);
        settled &= whole;
    }
    settled
}

// How many cells of a level's window its filled region doesn't hold.
#[tactic(auto, unfolding(plan_model::specs::Rounds::unfilled_cells))]
fn unfilled_cells(book: &Book, level: u8) -> u64
    requires rest { IsAtRest book.now.plan.state }
    requires level { level < length book.now.plan.state.levels }
    ensures value { result ≡ unfilled_cells book.now.plan.state level }
    ensures few { result ≤ 2 ^ 16 }
{
    filled_regions_are_near();
    let window = window_of(book, level);
    let filled = window.meet(book.filled(level));
    window.area().saturating_sub(filled.area())
}

// How many cells of the windows of the levels in use no filled region holds.
fn cells_to_fill(book: &Book) -> u64
    requires { IsAtRest book.now.plan.state }
    ensures { result ≡ cells_to_fill book.now.plan.state }
{
    let mut cells = 0;
    for level in book.finest()..book.levels() {
        cells += unfilled_cells(book, level);
    }
    cells
}

// Rounds, at most so many, for as long as some level in use isn't whole when the round would start.
fn fly_rounds<R: Threads + Sync, F: Filler + Sync, S: Shelf, K: Sink>(
    means: &Means<'_, R, F>,
    flight: &mut Flight,
    workers: u8,
    most: u64,
    shelf: &mut S,
    out: &mut K,
) -> Result<(), Halt>
    requires land { F.land means.now.filler.now ≡ flight.old.book.land }
    requires workers { workers ≤ 15 }
    requires rest { IsAtRest flight.old.book.plan.state }
    ensures flew { Flew S.leaves flight.old.book.land.terrain means.now.name.now
        (rounds most workers) result (place_of flight.old) (place_of flight.new)
        (S.told shelf.old) (S.told shelf.new) (K.told out.old) (K.told out.new) }
    ensures stays { OnOk result (Stays flight.old.book flight.new.book) }
{
    laws_below();
    'flown: for _ in 0..most {
        if is_settled(&flight.book) {
            return Ok(());
        }
        fly_round(means, flight, workers, shelf, out)?;
    }
    Ok(())
}

// Rounds until every level in use is whole. There are at most as many as there are cells of windows in use that no
// filled region holds when the settling starts.
#[tactic(auto, unfolding(plan_model::specs::Rounds::settle))]
pub(crate) fn settle<R: Threads + Sync, F: Filler + Sync, S: Shelf, K: Sink>(
    means: &Means<'_, R, F>,
    flight: &mut Flight,
    workers: u8,
    shelf: &mut S,
    out: &mut K,
) -> Result<(), Halt>
    requires land { F.land means.now.filler.now ≡ flight.old.book.land }
    requires some { 1 ≤ workers }
    requires workers { workers ≤ 15 }
    requires rest { IsAtRest flight.old.book.plan.state }

    // It puts and writes what a play of its events does; then every level in use is whole.
    ensures flew { Flew S.leaves flight.old.book.land.terrain means.now.name.now
        (settle workers) result (place_of flight.old) (place_of flight.new)
        (S.told shelf.old) (S.told shelf.new) (K.told out.old) (K.told out.new) }
    ensures settled { OnOk result (IsTrue (is_settled flight.new.book.plan.state)) }
    ensures stays { OnOk result (Stays flight.old.book flight.new.book) }
{
    settles_end();
    let most = cells_to_fill(&flight.book);
    fly_rounds(means, flight, workers, most, shelf, out)
}
