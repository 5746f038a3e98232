//! A level of a book: what is filled of it, and which pieces of its current strip are finished.

ghost use Rattle.std.specs.Prelude.{◌≡◌, ℕ, ◌≤◌, ◌<◌, ◌++◌, [], true, false, map, filter, length, slice_index_or};
ghost use Rattle.std.specs.Prelude.{IfOk, IfSome, vec_capacity};
ghost use Rattle.clip_regions.specs.Regions.{empty_region};
ghost use Rattle.plan_model.specs.Blocks.{same_block, same_number};
ghost use Rattle.plan_model.specs.Strips.{pieces, first_of};
ghost use Rattle.plan_model.specs.Claims.{strip_pieces};
ghost use Rattle.strip_planner.specs.Planned.{IsPlanned};
ghost use Rattle.book_plan.specs.Slots.{Shelf, empty_shelf, all_pieces, open_pieces, fresh_slot, marked_slot};
ghost use Rattle.book_plan.specs.Slots.{is_open, HaveDifferentBlocks, IsFirstOpen, IsFirstOfBlock};

use crate::slots::Slot;
use clip_regions::Region;
use plan_model::Piece;
use std::alloc::{AllocError, Global};
use std::marker::Model;
use strip_planner::pieces;

// How many pieces a strip of a window has at most.
pub(crate) const MOST_PIECES: usize = 1089;

// A level: its filled region, its plan number, and the pieces of its current strip in their order, each
// with a bit that says whether it is finished. It has room for the pieces of every strip.
#[derive(Drop)]
pub(crate) struct PlanLevel {
    filled: Region,
    plan: u64,
    slots: Vec<Slot>,
    // The first slot that is open: the count of slots where none is.
    first: usize,
}

impl Model for PlanLevel {
    ghost use Rattle.std.specs.Prelude.{◌≤◌, length, vec_capacity};
    ghost use Rattle.book_plan.specs.Slots.{Shelf, IsFirstOpen};

    ghost Value = { Shelf };

    ghost view = { λ s. record { filled = s.filled; plan = s.plan; slots = s.slots.items } };

    ghost invariant = { λ s.
        (1089 ≤ vec_capacity s.slots) × IsFirstOpen s.slots.items s.first × (length s.slots.items ≤ 1089) };
}

// Whether two numbers are one.
#[tactic(auto, unfolding(plan_model::specs::Blocks::same_number))]
fn same_number(a: i32, b: i32) -> bool
    ensures { result ≡ same_number a b }
{
    a <= b && b <= a
}

// Whether two pieces lie in one block.
#[tactic(auto, unfolding(plan_model::specs::Blocks::same_block))]
fn same_block(p: Piece, q: Piece) -> bool
    ensures { result ≡ same_block p q }
{
    same_number(p.bx, q.bx) && same_number(p.by, q.by)
}

// Lists the pieces of a strip, none of them finished, where nothing is listed and there is room.
fn list(slots: &mut Vec<Slot>, strip: Region)
    requires planned { IsPlanned strip }
    requires few { length (pieces strip) ≤ 1089 }
    requires none { slots.old.items ≡ [] }
    requires room { 1089 ≤ vec_capacity slots.old }
    ensures value { slots.new.items ≡ map fresh_slot (pieces strip) }
    ensures room { 1089 ≤ vec_capacity slots.new }
{
    for piece in pieces(strip) {
        slots.push_reserved(Slot {
            piece,
            finished: false,
        });
    }
}

// Lists the pieces of a strip, where there is one.
fn list_some(slots: &mut Vec<Slot>, strip: Option<Region>)
    requires planned { IfSome strip IsPlanned }
    requires few { length (strip_pieces strip) ≤ 1089 }
    requires none { slots.old.items ≡ [] }
    requires room { 1089 ≤ vec_capacity slots.old }
    ensures value { slots.new.items ≡ map fresh_slot (strip_pieces strip) }
    ensures room { 1089 ≤ vec_capacity slots.new }
{
    if let Some(strip) = strip {
        list(slots, strip);
    }
}

// The first open slot, where all before `from` are finished.
fn next_open(slots: &[Slot], from: usize) -> usize
    requires inside { from ≤ length slots.now }
    requires before { (n : ℕ) (d : Slot) → n < from → (slice_index_or slots.now n d).finished ≡ true }
    ensures { IsFirstOpen slots.now result }
{
    for n in from..slots.len() {
        if !slots[n].finished {
            return n;
        }
    }
    slots.len()
}

// The first slot from `from` on whose piece lies in the block of a piece.
fn find(slots: &[Slot], from: usize, piece: Piece) -> usize
    requires { from ≤ length slots.now }
    ensures { IsFirstOfBlock slots.now from piece result }
{
    for n in from..slots.len() {
        if same_block(slots[n].piece, piece) {
            return n;
        }
    }
    slots.len()
}

// Marks the piece of a block finished, where all slots before `from` are finished.
fn mark(slots: &mut [Slot], from: usize, piece: Piece)
    requires inside { from ≤ length slots.old }
    requires before { (n : ℕ) (d : Slot) → n < from → (slice_index_or slots.old n d).finished ≡ true }
    requires blocks { HaveDifferentBlocks slots.old }
    ensures { slots.new ≡ map (marked_slot piece) slots.old }
{
    let n = find(slots, from, piece);
    if n < slots.len() {
        slots[n].finished = true;
    }
}

// Marks the piece of a block finished, and gives the first open slot after it, where all slots before
// `from` are finished.
fn mark_and_go_on(slots: &mut [Slot], from: usize, piece: Piece) -> usize
    requires inside { from ≤ length slots.old }
    requires before { (n : ℕ) (d : Slot) → n < from → (slice_index_or slots.old n d).finished ≡ true }
    requires blocks { HaveDifferentBlocks slots.old }
    ensures value { slots.new ≡ map (marked_slot piece) slots.old }
    ensures first { IsFirstOpen slots.new result }
{
    mark(slots, from, piece);
    next_open(slots, from)
}

// How many slots are open.
fn count_open(slots: &[Slot]) -> u32
    requires { length slots.now ≤ 1089 }
    ensures { result ≡ length (filter is_open slots.now) }
{
    let mut count = 0;
    for slot in slots {
        if !slot.finished {
            count += 1;
        }
    }
    count
}

impl PlanLevel {
    // A level of which nothing is filled, with room for the pieces of every strip. It fails where memory
    // runs out.
    pub(crate) fn new(alloc: Global) -> Result<PlanLevel, AllocError>
        ensures { IfOk result (λ level. level ≡ empty_shelf) }
    {
        let slots = Vec::with_capacity(alloc, MOST_PIECES)?;
        Ok(PlanLevel {
            filled: Region::empty(),
            plan: 0,
            slots,
            first: 0,
        })
    }

    // The level's filled region.
    pub(crate) fn filled(&self) -> Region
        ensures { result ≡ self.now.filled }
    {
        self.filled
    }

    // The level's plan number.
    pub(crate) fn plan(&self) -> u64
        ensures { result ≡ self.now.plan }
    {
        self.plan
    }

    // Another filled region, plan number and current strip, of which no piece is finished.
    pub(crate) fn refill(&mut self, filled: Region, plan: u64, strip: Option<Region>)
        requires planned { IfSome strip IsPlanned }
        requires few { length (strip_pieces strip) ≤ 1089 }
        ensures { self.new ≡ record { filled = filled; plan = plan; slots = map fresh_slot (strip_pieces strip) } }
    {
        self.filled = filled;
        self.plan = plan;
        self.slots.clear();
        list_some(&mut self.slots, strip);
        self.first = next_open(self.slots.as_slice(), 0);
    }

    // Marks the piece of a block finished.
    pub(crate) fn mark(&mut self, piece: Piece)
        requires { HaveDifferentBlocks self.old.slots }
        ensures { self.new ≡ record self.old { slots = map (marked_slot piece) self.old.slots } }
    {
        self.first = mark_and_go_on(self.slots.as_mut_slice(), self.first, piece);
    }

    // Whether all pieces of the current strip are finished, or there is no strip.
    pub(crate) fn is_done(&self) -> bool
        ensures { result ≡ true → open_pieces self.now.slots ≡ [] }
    {
        self.first == self.slots.len()
    }

    // The first piece of the current strip that isn't finished.
    pub(crate) fn first_open(&self) -> Option<Piece>
        ensures { result ≡ first_of (open_pieces self.now.slots) }
    {
        if self.first < self.slots.len() {
            return Some(self.slots[self.first].piece);
        }
        None
    }

    // The slots of the current strip's pieces, in the strip's order.
    pub(crate) fn slots(&self) -> &[Slot]
        ensures { result.now ≡ self.now.slots }
    {
        self.slots.as_slice()
    }

    // The first slot that is open: the count of slots where none is.
    pub(crate) fn first(&self) -> usize
        ensures { IsFirstOpen self.now.slots result }
    {
        self.first
    }

    // How many pieces of the current strip aren't finished.
    pub(crate) fn open_count(&self) -> u32
        ensures { result ≡ length (open_pieces self.now.slots) }
    {
        count_open(self.slots.as_slice())
    }
}
