//! Runs of events, and the histories that they leave.

ghost use Rattle.std.specs.Prelude.{◌≡◌, ℕ, ◌+◌, ◌^◌, ◌<◌, ◌≤◌, ◌↔◌, IsTrue, IfOk, OnOk, OnErr, All, length, fold, map, take};
ghost use Rattle.plan_model.specs.Histories.{run, run_from, then_step, asked_by};
ghost use Rattle.plan_model.specs.Steps.{step};
ghost use Rattle.plan_model.specs.Sound.{IsSound, IsTaken};
ghost use Rattle.plan_plain.specs.SoundRuns.{IsSoundRun};
ghost use Rattle.plan_plain.specs.Asked.{asked_as, asked_of, IsAsked};

use plan_model::{Answer, Entry, Event};
use plan_plain_steps::{PlainState, is_taken};
use std::alloc::{AllocError, Global};
use std::marker::Model;

/// An event of a pass, 0 to 15.
#[derive(Clone, Copy, PartialEq, Eq, Debug)]
pub struct PlainAsked {
    /// The pass.
    pub pass: u8,
    /// The event.
    pub event: Event,
}

// Whether an event of a pass can be taken by a state with this many levels.
fn is_asked(levels: u8, asked: &PlainAsked) -> bool
    ensures value { IsTrue result ↔ IsAsked levels asked.now }
{
    asked.pass < 16 && is_taken(levels, asked.event)
}

/// Whether a state with this many levels can take all these events.
pub fn are_asked(levels: u8, events: &[PlainAsked]) -> bool
    ensures value { IsTrue result ↔ All (IsAsked levels) events.now }
{
    events.iter().all(|asked| is_asked(levels, asked))
}

/// What a run of events left: the state, and each event with its answer, the oldest first.
#[derive(Drop)]
pub struct PlainRun {
    pub(crate) state: PlainState,
    history: Vec<Entry>,
}

impl Model for PlainRun {
    ghost use Rattle.plan_model.specs.Histories.{Run};

    ghost Value = { Run };

    ghost view = { λ a. record { state = a.state; history = a.history.items } };
}

impl PlainRun {
    /// A run of no event from a state.
    pub fn from_state(alloc: Global, state: PlainState) -> PlainRun
        ensures value { result ≡ run_from state }
    {
        PlainRun {
            state,
            history: Vec::new(alloc),
        }
    }

    /// The state that the events left.
    pub fn state(&self) -> &PlainState
        ensures value { result.now ≡ self.now.state }
    {
        &self.state
    }

    /// Each event with its answer, the oldest first.
    pub fn history(&self) -> &[Entry]
        ensures value { result.now ≡ self.now.history }
    {
        self.history.as_slice()
    }

    /// One more event of pass `p`, 0 to 15. Where memory runs out it fails and changes nothing.
    #[tactic(auto, unfolding(plan_model::specs::Histories::then_step))]
    pub fn then_step(&mut self, alloc: Global, p: u8, event: Event) -> Result<Answer, AllocError>
        requires sound { IsSoundRun self.old }
        requires few { length self.old.history < 2 ^ 62 }
        requires pass { p < 16 }
        requires taken { IsTaken (length self.old.state.levels) event }

        // The run and the answer are those of the definition, or nothing changes.
        ensures run { OnOk result (self.new ≡ then_step self.old p event) }
        ensures unchanged { OnErr result (self.new ≡ self.old) }
        ensures answer { IfOk result (λ answer. answer ≡ (step self.old.state p event).answer) }

        // The run stays sound and of one size.
        ensures sound { IsSoundRun self.new }
        ensures grown { length self.new.history ≤ length self.old.history + 1 }
        ensures k { self.new.state.k ≡ self.old.state.k }
        ensures levels { length self.new.state.levels ≡ length self.old.state.levels }
    {
        self.history.reserve(1)?;
        let answer = self.state.step(alloc, p, event)?;
        let entry = Entry {
            pass: p,
            event,
            answer,
        };
        self.history.push(entry).unwrap();
        Ok(answer)
    }
}

/// The run of some events from a state. Where memory runs out it fails, and the state is gone.
pub fn run(alloc: Global, state: PlainState, events: &[PlainAsked]) -> Result<PlainRun, AllocError>
    requires sound { IsSound 0 state }
    requires few { length events.now < 2 ^ 62 }
    requires events { All (IsAsked (length state.levels)) events.now }
    ensures value { IfOk result (λ r. r ≡ run state (asked_of events.now)) }
    ensures sound { IfOk result IsSoundRun }
{
    let mut run = PlainRun::from_state(alloc, state);
    for asked in events {
        run.then_step(alloc, asked.pass, asked.event)?;
    }
    Ok(run)
}

// The event of an entry.
fn event_of(entry: &Entry) -> PlainAsked
    ensures value { asked_as result ≡ asked_by entry.now }
{
    PlainAsked {
        pass: entry.pass,
        event: entry.event,
    }
}

/// The events of a history. It fails where memory runs out.
pub fn events_of(alloc: Global, history: &[Entry]) -> Result<Vec<PlainAsked>, AllocError>
    ensures value { IfOk result (λ v. asked_of v.items ≡ map asked_by history.now) }
{
    let mut out = Vec::new(alloc);
    for entry in history {
        out.push(event_of(entry))?;
    }
    Ok(out)
}
