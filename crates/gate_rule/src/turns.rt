//! The calls over a table of the gate: a turn is entered, an entry is noted, the turn is passed on; passes are split
//! and joined, and the table is opened and closed.

ghost use Rattle.std.specs.Prelude.{◌≡◌, ℕ, ◌<◌, true, false, [], ◌∷◌, None, IfOk, IfErr, OnErr};
ghost use Rattle.plan_model.specs.States.{pass_at};
ghost use Rattle.plan_model.specs.declared.events.Work.TheVariants.{Free};
ghost use Rattle.plan_histories.specs.Places.{places_of};
ghost use Rattle.gate_rule.specs.Flags.{flag, least};
ghost use Rattle.gate_rule.specs.Rule.{ground_of, state_in, Stands, first_view, kept_back, given_away};
ghost use Rattle.gate_rule.specs.Plays.{Adds, Counted, HasAll};
ghost use Rattle.gate_rule.specs.Steps.{ground_in, IsSeatOf, Rests, HasDesk, InTurn, Entered, IsAnswered, Noted, Left, TakesOver, EndsWith};

use crate::journal::Desk;
use crate::rule::{Count, Cut, Draw, Gate, Key, Look, PassOn, Said, Tie};
use crate::view::View;
use atomic_table::{Refused, Table};
use clip_book::NoMemory;
use plan_model::{Answer, Entry, Event};
use std::alloc::Global;
use std::marker::Brand;
use std::sync::Wait;
use std::thread::yield_now;

/// The table of a clip.
pub type GateTable = Table<Option<Desk>, View, Key, Gate, Global>;

/// The seat of a pass.
pub type Seat = atomic_table::Seat<Option<Desk>, View>;

// The words: the ticket to draw next, the ticket that is served, and the number of entries.
const TICKET: usize = 0;

const SERVING: usize = 1;

const ENTRIES: usize = 2;

/// The ticket to draw next and the ticket that is served, where they differ at the end.
#[derive(Clone, Copy, PartialEq, Eq, Debug)]
pub struct TurnOut {
    /// The ticket to draw next.
    pub ticket: u64,
    /// The ticket that is served.
    pub serving: u64,
}

/// A table with a desk at home, of a book at the start and an empty journal, and its first seat. It fails where memory
/// runs out.
pub fn open(alloc: Global, desk: Desk, key: &Key) -> Result<(GateTable, Seat), NoMemory>
    requires { Stands (ground_in key.now) [] desk.book.handed desk }
    ensures seat { IfOk result (λ t. IsSeatOf t.1.table_id t.0.shared.table_id) }
    ensures view { IfOk result (λ t. t.1.me ≡ (first_view (ground_in key.now), [])) }
    ensures rests { IfOk result (λ t. Rests t.1.me) }
    ensures key { IfOk result (λ t. t.0.shared.key ≡ key.now) }
{
    let Ok(mut slots) = Vec::with_capacity(alloc, 1) else {
        return Err(NoMemory);
    };
    slots.push_reserved(Some(desk));
    match Table::new(alloc, &[0, 0, 0], slots, key) {
        Ok(both) => Ok(both),
        Err(Refused { slots: _ }) => Err(NoMemory),
    }
}

/// Draws a ticket, waits until it is served, and takes the book.
pub fn enter<R: Wait>(rt: &R, table: &GateTable, seat: &mut Seat) -> Desk
    requires table { IsSeatOf seat.old.table_id table.now.shared.table_id }
    requires rests { Rests seat.old.me }
    ensures table { seat.new.table_id ≡ seat.old.table_id }
    ensures entered { Entered seat.old.me seat.new.me result }
{
    let ticket = table.shared.fetch_add::<Draw>(seat, TICKET, 1);
    for _ in rt.forever() {
        if table.shared.load::<Look>(seat, SERVING) == ticket {
            return table.shared.exchange(seat, 0, None).unwrap();
        }
        yield_now();
    }
    unreachable!()
}

/// Puts the book back, and passes the turn on.
pub fn leave(table: &GateTable, seat: &mut Seat, desk: Desk)
    requires table { IsSeatOf seat.old.table_id table.now.shared.table_id }
    requires turn { HasDesk seat.old.me }
    requires stands { Stands (ground_of seat.old.me.0) seat.old.me.0.seen seat.old.me.0.handed desk }
    ensures table { seat.new.table_id ≡ seat.old.table_id }
    ensures left { Left seat.old.me seat.new.me }
{
    drop(table.shared.exchange(seat, 0, Some(desk)));
    table.shared.fetch_add::<PassOn>(seat, SERVING, 1);
}

// Counts an entry, while the book is out: it leaves this desk.
fn count<E: Said>(table: &GateTable, seat: &mut Seat, desk: &Desk, entry: Entry)
    requires table { IsSeatOf seat.old.table_id table.now.shared.table_id }
    requires turn { seat.old.me.0.turn ≡ true }
    requires said { desk.now ≡ E.desk }
    requires adds { Adds seat.old.me.0 entry desk.now }
    ensures table { seat.new.table_id ≡ seat.old.table_id }
    ensures counted { Counted desk.now seat.old.me seat.new.me }
{
    table.shared.fetch_add::<Count<E>>(seat, ENTRIES, 1);
}

/// How many places an event takes, with its answer.
pub fn places_of(event: Event, answer: Answer) -> u32
    ensures { result ≡ places_of event answer }
{
    match (event, answer) {
        (Event::Claim, Answer::Job { .. }) | (Event::Begin, Answer::Frame { .. }) => 2,
        (Event::Finish, _) | (Event::End, Answer::Closed { .. }) => 0,
        _ => 1,
    }
}

/// Writes the entry of an event that the book has answered, puts the book back, and passes the turn on.
pub fn note(table: &GateTable, seat: &mut Seat, mut desk: Desk, entry: Entry)
    requires table { IsSeatOf seat.old.table_id table.now.shared.table_id }
    requires turn { InTurn seat.old.me }
    requires answered { IsAnswered seat.old.me.0 entry desk }
    ensures table { seat.new.table_id ≡ seat.old.table_id }
    ensures noted { Noted seat.old.me seat.new.me entry desk }
{
    desk.journal.push(entry);
    desk.taken += places_of(entry.event, entry.answer);
    count::<Brand>(table, seat, &desk, entry);
    leave(table, seat, desk);
}

/// Cuts the least number that a pass has left to give off for a new pass.
pub fn split(table: &GateTable, seat: &mut Seat) -> Seat
    requires table { IsSeatOf seat.old.table_id table.now.shared.table_id }
    requires rests { Rests seat.old.me }
    requires some { flag seat.old.me.0.left (least seat.old.me.0.left) ≡ true }

    // Both keep the table; one gives the number, and the other begins with it alone.
    ensures table { (seat.new.table_id ≡ seat.old.table_id) × (result.table_id ≡ seat.old.table_id) }
    ensures kept { seat.new.me ≡ (kept_back seat.old.me.0, []) }
    ensures given { result.me ≡ (given_away seat.old.me.0, []) }
    ensures kept_rests { Rests seat.new.me }
    ensures given_rests { Rests result.me }
{
    table.shared.split_seat::<Cut>(seat)
}

/// In a turn of a pass, it takes over another that has neither a job nor a frame.
pub fn take_over<R: Wait>(rt: &R, table: &GateTable, seat: &mut Seat, other: Seat)
    requires table { IsSeatOf seat.old.table_id table.now.shared.table_id }
    requires other_table { IsSeatOf other.table_id table.now.shared.table_id }
    requires rests { Rests seat.old.me }
    requires other_rests { Rests other.me }

    // The other has nothing.
    requires free { pass_at (state_in (ground_of other.me.0) other.me.0.seen) other.me.0.own ≡ Free }

    // The pass has what it had, and the numbers of the other.
    ensures table { seat.new.table_id ≡ seat.old.table_id }
    ensures taken { TakesOver seat.old.me other.me seat.new.me }
{
    let desk = enter(rt, table, seat);
    table.shared.join_seat::<Tie>(seat, other);
    leave(table, seat, desk);
}

/// Ends a clip: the book and its journal come back, or a ticket is out.
pub fn close(table: GateTable, seat: Seat) -> Result<Desk, TurnOut>
    requires table { IsSeatOf seat.table_id table.shared.table_id }
    requires rests { Rests seat.me }
    ensures ends { IfOk result (λ desk. EndsWith seat.me.0 desk) }
    ensures whole { IfOk result (λ desk. HasAll seat.me.0 → desk.journal ≡ seat.me.0.seen) }
    ensures out { IfErr result (λ out. out.ticket ≡ out.serving → ⊥) }
    ensures never { OnErr result (HasAll seat.me.0 → ⊥) }
{
    let mut closed = table.close_with(seat);
    let ticket = closed.word(TICKET);
    let serving = closed.word(SERVING);
    let slot = closed.take(0);
    closed.free();
    if ticket != serving {
        drop(slot);
        return Err(TurnOut { ticket, serving });
    }
    Ok(slot.unwrap())
}
