//! The events of a pass, each at its turn.

ghost use Rattle.std.specs.Prelude.{◌≡◌, ◌<◌, ◌≤◌, ◌^◌, ◌+◌, IfOk, IfErr, OnErr};
ghost use Rattle.plan_model.specs.Limits.{IsViewer};
ghost use Rattle.plan_model.specs.States.{pass_at, frame_of};
ghost use Rattle.plan_model.specs.declared.events.Event.TheVariants.{Move, Claim, Finish, Publish, Begin, End};
ghost use Rattle.plan_model.specs.declared.events.Answer.TheVariants.{Moved};
ghost use Rattle.clip_book.specs.Answers.{said_of_claim, said_of_given, said_of_published, said_of_begun, said_of_ended};
ghost use Rattle.gate_rule.specs.Steps.{IsSeatOf, InTurn, IsAnswered, Noted};
ghost use Rattle.clip_gate.specs.Parts.{IsPart};
ghost use Rattle.clip_gate.specs.Passes.{part_of};
ghost use Rattle.clip_gate.specs.Calls.{HasMade, IsFull, places_to_end, GivesJob, GivesActives, IsFilledOfPass};

use crate::clip::Clip;
use crate::faults::JournalFull;
use crate::part::{Part, part_of};
use crate::pass::Pass;
use clip_book::{
    Begun, Book, Claimed, Ended, FilledJob, Given, Published, told_of_begun, told_of_claim,
    told_of_ended, told_of_given, told_of_published,
};
use gate_rule::{Desk, GateTable, Seat, enter, leave, note};
use plan_holds::histories_go_on;
use plan_model::{Answer, Entry, Event};
use std::sync::Wait;

// How many places a journal has.
const LIMIT: u32 = 1_048_576;

// How many places an event asks for: that of its entry, and with a claim or a beginning that of the entry which gives
// the job back or ends the frame.
const TO_MOVE: u32 = 1;

const TO_CLAIM: u32 = 2;

const TO_PUBLISH: u32 = 1;

const TO_BEGIN: u32 = 2;

// Writes the entry of an event that the book has answered and passes the turn on. It gives the pass's part.
fn write(table: &GateTable, seat: &mut Seat, desk: Desk, entry: Entry) -> Part
    requires low { entry.pass < 16 }
    requires table { IsSeatOf seat.old.table_id table.now.shared.table_id }

    // The turn is the pass's, and the book has answered.
    requires turn { InTurn seat.old.me }
    requires answered { IsAnswered seat.old.me.0 entry desk }

    // The entry is written, and the part is what the pass has then.
    ensures part { IsPart result (pass_at desk.book.plan.state entry.pass) }
    ensures table { seat.new.table_id ≡ seat.old.table_id }
    ensures noted { Noted seat.old.me seat.new.me entry desk }
{
    let part = part_of(&desk.book, entry.pass);
    note(table, seat, desk, entry);
    part
}

impl Clip {
    /// The viewer moves to sample (`x`, `y`) of the mosaic, each from −4194304 to 4194304, at altitude `a`, up to
    /// 1048576. It is refused exactly where fewer than one place of the journal is free.
    pub fn move_to(
        &self,
        rt: &impl Wait,
        pass: &mut Pass,
        x: i32,
        y: i32,
        a: u32,
    ) -> Result<(), JournalFull>
        requires clip { pass.old.clip ≡ self.now }
        requires viewer { IsViewer x y a }
        ensures made { IfOk result (λ _. HasMade (Move x y a) Moved 1 pass.old pass.new) }
        ensures full { OnErr result (IsFull 1 pass.old pass.new) }
        ensures limit { IfErr result (λ full. full.limit ≡ 1048576) }
    {
        let mut desk = enter(rt, &self.table, &mut pass.seat);
        if LIMIT - TO_MOVE < desk.taken {
            leave(&self.table, &mut pass.seat, desk);
            return Err(JournalFull { limit: LIMIT });
        }
        desk.book.move_to(x, y, a);
        let entry = Entry {
            pass: pass.number,
            event: Event::Move { x, y, a },
            answer: Answer::Moved,
        };
        pass.part = write(&self.table, &mut pass.seat, desk, entry);
        Ok(())
    }

    /// The pass claims the first piece that can be claimed. It is refused exactly where fewer than two places of the
    /// journal are free: the second is for the job's return.
    pub fn claim(&self, rt: &impl Wait, pass: &mut Pass) -> Result<Claimed, JournalFull>
        requires { pass.old.clip ≡ self.now }
        ensures made { IfOk result (λ answer. HasMade Claim (said_of_claim answer) 2 pass.old pass.new) }
        ensures job { IfOk result (λ answer. GivesJob pass.new answer) }
        ensures full { OnErr result (IsFull 2 pass.old pass.new) }
        ensures limit { IfErr result (λ full. full.limit ≡ 1048576) }
    {
        let mut desk = enter(rt, &self.table, &mut pass.seat);
        if LIMIT - TO_CLAIM < desk.taken {
            leave(&self.table, &mut pass.seat, desk);
            return Err(JournalFull { limit: LIMIT });
        }
        let answer = desk.book.claim(pass.number);
        let entry = Entry {
            pass: pass.number,
            event: Event::Claim,
            answer: told_of_claim(&answer),
        };
        pass.part = write(&self.table, &mut pass.seat, desk, entry);
        Ok(answer)
    }

    /// The pass gives back the job that it claimed, with its cells filled. It is never refused.
    pub fn give_back(&self, rt: &impl Wait, pass: &mut Pass, job: FilledJob) -> Given
        requires clip { pass.old.clip ≡ self.now }
        requires job { IsFilledOfPass pass.old job }
        ensures { HasMade Finish (said_of_given result) 0 pass.old pass.new }
    {
        let mut desk = enter(rt, &self.table, &mut pass.seat);
        let answer = desk.book.give_back(pass.number, job);
        let entry = Entry {
            pass: pass.number,
            event: Event::Finish,
            answer: told_of_given(answer),
        };
        pass.part = write(&self.table, &mut pass.seat, desk, entry);
        answer
    }

    /// The filled region of a level takes its current strip in, where all of the strip's pieces are finished. It is
    /// refused exactly where fewer than one place of the journal is free.
    pub fn publish(
        &self,
        rt: &impl Wait,
        pass: &mut Pass,
        level: u8,
    ) -> Result<Published, JournalFull>
        requires clip { pass.old.clip ≡ self.now }
        requires level { level < self.now.land.levels }
        ensures made { IfOk result (λ answer. HasMade (Publish level) (said_of_published answer) 1 pass.old pass.new) }
        ensures full { OnErr result (IsFull 1 pass.old pass.new) }
        ensures limit { IfErr result (λ full. full.limit ≡ 1048576) }
    {
        histories_go_on();
        let mut desk = enter(rt, &self.table, &mut pass.seat);
        if LIMIT - TO_PUBLISH < desk.taken {
            leave(&self.table, &mut pass.seat, desk);
            return Err(JournalFull { limit: LIMIT });
        }
        let answer = desk.book.publish(level);
        let entry = Entry {
            pass: pass.number,
            event: Event::Publish { level },
            answer: told_of_published(answer),
        };
        pass.part = write(&self.table, &mut pass.seat, desk, entry);
        Ok(answer)
    }

    /// The pass begins a frame of the active regions. It is refused exactly where fewer than two places of the journal
    /// are free: the second is for the frame's end.
    pub fn begin(&self, rt: &impl Wait, pass: &mut Pass) -> Result<Begun, JournalFull>
        requires { pass.old.clip ≡ self.now }
        ensures made { IfOk result (λ answer. HasMade Begin (said_of_begun answer) 2 pass.old pass.new) }
        ensures actives { IfOk result (λ answer. GivesActives pass.new answer) }
        ensures full { OnErr result (IsFull 2 pass.old pass.new) }
        ensures limit { IfErr result (λ full. full.limit ≡ 1048576) }
    {
        let mut desk = enter(rt, &self.table, &mut pass.seat);
        if LIMIT - TO_BEGIN < desk.taken {
            leave(&self.table, &mut pass.seat, desk);
            return Err(JournalFull { limit: LIMIT });
        }
        let answer = desk.book.begin(pass.number);
        let entry = Entry {
            pass: pass.number,
            event: Event::Begin,
            answer: told_of_begun(&answer),
        };
        pass.part = write(&self.table, &mut pass.seat, desk, entry);
        Ok(answer)
    }

    /// The pass ends its frame. It is refused exactly where the pass has no frame and fewer than one place of the
    /// journal is free.
    pub fn end(&self, rt: &impl Wait, pass: &mut Pass) -> Result<Ended, JournalFull>
        requires { pass.old.clip ≡ self.now }
        ensures made { IfOk result (λ answer.
            HasMade End (said_of_ended answer) (places_to_end (frame_of (part_of pass.old))) pass.old pass.new) }
        ensures full { OnErr result (IsFull (places_to_end (frame_of (part_of pass.old))) pass.old pass.new) }
        ensures limit { IfErr result (λ full. full.limit ≡ 1048576) }
    {
        let mut desk = enter(rt, &self.table, &mut pass.seat);
        let asked = places_to_end(&desk.book, pass.number);
        if LIMIT - asked < desk.taken {
            leave(&self.table, &mut pass.seat, desk);
            return Err(JournalFull { limit: LIMIT });
        }
        let answer = desk.book.end(pass.number);
        let entry = Entry {
            pass: pass.number,
            event: Event::End,
            answer: told_of_ended(answer),
        };
        pass.part = write(&self.table, &mut pass.seat, desk, entry);
        Ok(answer)
    }
}

// How many places an end asks for.
fn places_to_end(book: &Book, pass: u8) -> u32
    requires { pass < 16 }
    ensures { result ≡ places_to_end (frame_of (pass_at book.now.plan.state pass)) }
{
    match book.frame_of(pass) {
        Some(_) => 0,
        None => 1,
    }
}
