//! The clip: its start and its end, and passes that are split and joined.

ghost use Rattle.std.specs.Prelude.{◌≡◌, ◌+◌, ◌<◌, true, IfOk, IfErr, OnErr};
ghost use Rattle.plan_model.specs.Limits.{IsSize};
ghost use Rattle.gate_rule.specs.Flags.{how_many};
ghost use Rattle.clip_gate.specs.Passes.{first_pass, is_free, HasAllNumbers};
ghost use Rattle.clip_gate.specs.Calls.{IsSplit, IsJoined};
ghost use Rattle.clip_gate.specs.Closing.{Closes, IsTurnOut};

use crate::faults::{CloseFault, PassesOut};
use crate::flags;
use crate::journal::Journal;
use crate::part::Part;
use crate::pass::Pass;
use clip_book::{Book, NoMemory};
use gate_rule::{Desk, GateTable, Key, TurnOut};
use std::alloc::Global;
use std::marker::Model;
use std::snapshot::Snapshot;
use std::sync::Wait;
use terrain_store::Shape;

/// A book that callers on their own threads share, and its journal. Each has a [`Pass`].
///
/// A contract sees which clip it is, its terrain with its levels, and K.
#[derive(Drop)]
pub struct Clip {
    pub(crate) table: GateTable,
}

impl Model for Clip {
    ghost use Rattle.std.specs.Prelude.{◌≡◌};
    ghost use Rattle.clip_gate.specs.Passes.{ClipView};

    ghost Value = { ClipView };

    ghost view = { λ s. record {
      table = s.table.shared.table_id;
      land = s.table.shared.key.about.value;
      size = s.table.shared.key.size;
    } };

    ghost invariant = { λ s. (s.table.shared.table_id.words ≡ 3) × (s.table.shared.table_id.slots ≡ 1) };
}

impl Clip {
    /// A clip of a terrain at the start, for K from 4 to 8, with its first pass: number 0, with the numbers 1 to 15
    /// left to give. It takes all memory of the book and of the journal, and fails where memory runs out.
    pub fn start(alloc: Global, shape: Shape, k: u8) -> Result<(Clip, Pass), NoMemory>
        requires { IsSize k }
        ensures land { IfOk result (λ both. both.0.land ≡ shape) }
        ensures size { IfOk result (λ both. both.0.size ≡ k) }
        ensures first { IfOk result (λ both. both.1 ≡ first_pass both.0) }
    {
        let key = Key {
            about: Snapshot::of(&shape),
            size: k,
        };
        let book = Book::start(alloc, shape, k)?;
        let journal = gate_rule::Journal::start(alloc)?;
        let desk = Desk {
            book,
            journal,
            taken: 0,
        };
        let (table, seat) = gate_rule::open(alloc, desk, &key)?;
        let mut left = [true; 16];
        left[0] = false;
        let pass = Pass {
            seat,
            number: 0,
            left,
            part: Part {
                free: true,
                frame: None,
            },
        };
        Ok((Clip { table }, pass))
    }

    /// A free pass with the least number that `pass` has left to give. It has none left to give itself. The call takes
    /// neither a turn nor memory, and refuses exactly where `pass` has no number left to give.
    pub fn split(&self, pass: &mut Pass) -> Result<Pass, PassesOut>
        requires { pass.old.clip ≡ self.now }
        ensures split { IfOk result (λ given. IsSplit pass.old pass.new given) }
        ensures none { OnErr result (how_many pass.old.left ≡ 0) }
        ensures same { OnErr result (pass.new ≡ pass.old) }
    {
        let number = flags::least(&pass.left);
        if number == 16 {
            return Err(PassesOut);
        }
        let seat = gate_rule::split(&self.table, &mut pass.seat);
        pass.left[usize::from(number)] = false;
        Ok(Pass {
            seat,
            number,
            left: [false; 16],
            part: Part {
                free: true,
                frame: None,
            },
        })
    }

    /// `pass` takes over what `other`, which is free, has seen and made, its numbers and those that it has left to
    /// give.
    pub fn join(&self, rt: &impl Wait, pass: &mut Pass, other: Pass)
        requires clip { pass.old.clip ≡ self.now }
        requires other_clip { other.clip ≡ self.now }
        requires other_free { is_free other ≡ true }
        ensures joined { IsJoined pass.old other pass.new }
    {
        let Pass {
            seat,
            number: _,
            left,
            part: _,
        } = other;
        gate_rule::take_over(rt, &self.table, &mut pass.seat, seat);
        flags::add(&mut pass.left, &left);
    }

    /// Ends the clip: its book and its journal. It is refused exactly where a ticket is out, and then all is dropped.
    pub fn close(self, pass: Pass) -> Result<(Book, Journal), CloseFault>
        requires { pass.clip ≡ self }
        ensures closes { IfOk result (λ both. Closes pass both.0 both.1) }
        ensures whole { IfOk result (λ both. HasAllNumbers pass → both.1 ≡ pass.history) }
        ensures out { IfErr result (λ fault. IsTurnOut fault) }
        ensures never { OnErr result (HasAllNumbers pass → ⊥) }
    {
        let Clip { table } = self;
        let Pass {
            seat,
            number: _,
            left: _,
            part: _,
        } = pass;
        match gate_rule::close(table, seat) {
            Ok(
                Desk {
                    book,
                    journal,
                    taken: _,
                },
            ) => Ok((book, Journal { entries: journal })),
            Err(TurnOut { ticket, serving }) => Err(CloseFault::TurnOut { ticket, serving }),
        }
    }
}
