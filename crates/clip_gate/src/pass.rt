//! A pass: a seat of a clip, with its number.

ghost use Rattle.std.specs.Prelude.{◌≡◌, option_map};
ghost use Rattle.plan_model.specs.States.{frame_of};
ghost use Rattle.book_plan.specs.Notes.{open_frame};
ghost use Rattle.gate_rule.specs.Flags.{how_many};
ghost use Rattle.clip_gate.specs.Passes.{is_free, part_of, IsSound};

use crate::flags;
use crate::part::Part;
use clip_book::FrameNote;
use gate_rule::Seat;
use std::marker::Model;

/// A pass of a clip, which goes from thread to thread.
///
/// A contract sees what it knows: its clip, its number, its numbers and those that it has left to give, the history,
/// and the 64 heights of its job's tile. Each call of it tells what is true of every pass: its history is legal, its
/// number is among its numbers, of which no other has a job or a frame, and no number left to give is used.
#[derive(Drop)]
pub struct Pass {
    pub(crate) seat: Seat,
    pub(crate) number: u8,
    pub(crate) left: [bool; 16],
    pub(crate) part: Part,
}

impl Model for Pass {
    ghost use Rattle.clip_gate.specs.Passes.{PassView, pass_of, IsPass};

    ghost Value = { PassView };

    ghost view = { λ s. pass_of s.seat.table_id s.seat.me.0 };

    ghost invariant = { λ s. IsPass s.seat.table_id s.seat.me s.number s.left s.part };
}

impl Pass {
    /// The pass's number, 0 to 15.
    pub fn number(&self) -> u8
        ensures value { result ≡ self.now.number }
        ensures sound { IsSound self.now }
    {
        self.number
    }

    /// Whether the pass has neither a job nor a frame.
    pub fn is_free(&self) -> bool
        ensures value { result ≡ is_free self.now }
        ensures sound { IsSound self.now }
    {
        self.part.free
    }

    /// The frame of the pass, where it has one: its number, the viewer as it began, and its active regions.
    pub fn frame(&self) -> Option<FrameNote>
        ensures value { option_map open_frame result ≡ frame_of (part_of self.now) }
        ensures sound { IsSound self.now }
    {
        self.part.frame
    }

    /// How many numbers the pass has left to give.
    pub fn left(&self) -> u8
        ensures value { result ≡ how_many self.now.left }
        ensures sound { IsSound self.now }
    {
        flags::how_many(&self.left)
    }
}
