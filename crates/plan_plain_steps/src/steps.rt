//! Any event of a pass.

ghost use Rattle.std.specs.Prelude.{◌≡◌, ℕ, ◌+◌, ◌<◌, ◌≤◌, ◌↔◌, ◌^◌, IsTrue, IfOk, OnOk, OnErr, length};
ghost use Rattle.plan_model.specs.Limits.{IsViewed, IsViewer};
ghost use Rattle.plan_model.specs.Steps.{step};
ghost use Rattle.plan_model.specs.Sound.{IsReady, IsSound, IsTaken};

use crate::state::PlainState;
use plan_model::{Answer, Event};
use plan_sound::{sizes_are_kept, sound_bounds_widen, steps_keep_soundness};
use std::alloc::{AllocError, Global};

// Whether a coordinate of a viewer is within the limits.
fn is_viewed(v: i32) -> bool
    ensures value { IsTrue result ↔ IsViewed v }
{
    -4194304 <= v && v <= 4194304
}

/// Whether a viewer at sample (`x`, `y`) and altitude `a` is within the limits.
pub fn is_viewer(x: i32, y: i32, a: u32) -> bool
    ensures value { IsTrue result ↔ IsViewer x y a }
{
    is_viewed(x) && is_viewed(y) && a <= 1048576
}

/// Whether a state with this many levels can take the event: a published level is there, and a viewer is
/// within the limits.
pub fn is_taken(levels: u8, event: Event) -> bool
    ensures value { IsTrue result ↔ IsTaken levels event }
{
    match event {
        Event::Move { x, y, a } => is_viewer(x, y, a),
        Event::Publish { level } => level < levels,
        Event::Claim | Event::Finish | Event::Begin | Event::End => true,
    }
}

impl PlainState {
    // What an event of a pass answers and changes.
    fn take(&mut self, alloc: Global, p: u8, event: Event) -> Result<Answer, AllocError>
        requires sound { IsReady self.old }
        requires pass { p < 16 }
        requires taken { IsTaken (length self.old.levels) event }
        ensures answer { IfOk result (λ answer. answer ≡ (step self.old p event).answer) }
        ensures state { OnOk result (self.new ≡ (step self.old p event).state) }
        ensures unchanged { OnErr result (self.new ≡ self.old) }
    {
        match event {
            Event::Move { x, y, a } => Ok(self.move_to(x, y, a)),
            Event::Claim => self.claim(alloc, p),
            Event::Finish => self.finish(alloc, p),
            Event::Publish { level } => self.publish(alloc, level),
            Event::Begin => self.begin(alloc, p),
            Event::End => Ok(self.end(p)),
        }
    }

    /// What an event of pass `p`, 0 to 15, answers and changes. The pass of a move or a publication decides
    /// nothing. Where memory runs out it fails and changes nothing.
    pub fn step(&mut self, alloc: Global, p: u8, event: Event) -> Result<Answer, AllocError>
        requires sound { IsReady self.old }
        requires pass { p < 16 }
        requires taken { IsTaken (length self.old.levels) event }

        // The answer and the state are those of the definition, or nothing changes.
        ensures answer { IfOk result (λ answer. answer ≡ (step self.old p event).answer) }
        ensures state { OnOk result (self.new ≡ (step self.old p event).state) }
        ensures unchanged { OnErr result (self.new ≡ self.old) }

        // The state stays sound and of one size.
        ensures sound { (n : ℕ) → IsSound n self.old → IsSound (n + 1) self.new }
        ensures k { self.new.k ≡ self.old.k }
        ensures levels { length self.new.levels ≡ length self.old.levels }
    {
        steps_keep_soundness();
        sound_bounds_widen();
        sizes_are_kept();
        self.take(alloc, p, event)
    }
}
