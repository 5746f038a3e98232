//! Histories: whether they are legal, and what they take.

ghost use Rattle.std.specs.Prelude.{◌≡◌, ℕ, ◌+◌, ◌^◌, ◌<◌, ◌↔◌, IsTrue, IfOk, IfNone, IfSome, All, length, count_by};
ghost use Rattle.plan_model.specs.Limits.{IsSize, IsLevelCount};
ghost use Rattle.plan_model.specs.States.{has_work};
ghost use Rattle.plan_model.specs.Steps.{step};
ghost use Rattle.plan_model.specs.Histories.{IsAllowed, IsLegalHistory, state_of_history, places, is_move, moves};
ghost use Rattle.plan_model.specs.Sound.{IsReady, IsSound};
ghost use Rattle.plan_plain.specs.Legal.{IsNext, StopsAt, IsPlayed};

use plan_model::{Answer, Entry, Event, Work};
use plan_plain_steps::{PlainFrame, PlainState, has_work, is_taken, is_viewer};
use plan_sound::sound_bounds_widen;
use std::alloc::{AllocError, Global};

/// Whether a state allows an event of a pass: a job to give back, a level that is there, a viewer within
/// the limits.
pub fn is_allowed(state: &PlainState, p: u8, event: Event) -> bool
    requires sound { IsReady state.now }
    requires pass { p < 16 }
    ensures value { IsTrue result ↔ IsAllowed state.now p event }
{
    match event {
        Event::Move { x, y, a } => is_viewer(x, y, a),
        Event::Finish => state.job_at(p).is_some(),
        Event::Publish { level } => level < state.level_count(),
        Event::Claim | Event::Begin | Event::End => true,
    }
}

// Whether two answers are one.
fn same_answer(a: Answer, b: Answer) -> bool
    ensures value { IsTrue result ↔ (a ≡ b) }
{
    a == b
}

// Takes an entry's event, whose pass is there and which is allowed, and tells whether its answer is the
// entry's.
fn answers(alloc: Global, state: &mut PlainState, entry: Entry) -> Result<bool, AllocError>
    requires sound { IsReady state.old }
    requires pass { entry.pass < 16 }
    requires allowed { IsAllowed state.old entry.pass entry.event }
    ensures value { IfOk result (λ same. IsTrue same ↔ ((step state.old entry.pass entry.event).answer ≡
        entry.answer)) }
    ensures state { IfOk result (λ same. state.new ≡ (step state.old entry.pass entry.event).state) }
    ensures sound { (n : ℕ) → IsSound n state.old → IsSound (n + 1) state.new }
{
    let answer = state.step(alloc, entry.pass, entry.event)?;
    Ok(same_answer(answer, entry.answer))
}

// Whether an entry can follow a state, and the state after it where it can.
fn follows(alloc: Global, state: &mut PlainState, entry: Entry) -> Result<bool, AllocError>
    requires sound { IsReady state.old }
    ensures value { IfOk result (λ legal. IsTrue legal ↔ IsNext state.old entry) }
    ensures state { IfOk result (λ legal. IsTrue legal → state.new ≡ (step state.old entry.pass entry.event).state) }
    ensures sound { (n : ℕ) → IsSound n state.old → IsSound (n + 1) state.new }
{
    sound_bounds_widen();
    if entry.pass >= 16 {
        return Ok(false);
    }
    if !is_allowed(state, entry.pass, entry.event) {
        return Ok(false);
    }
    answers(alloc, state, entry)
}

/// The entry at which a history stops being legal, for K from 4 to 8 and 1 to 12 levels: none where it is
/// legal. It fails where memory runs out.
pub fn stops_at(
    alloc: Global,
    k: u8,
    levels: u8,
    entries: &[Entry],
) -> Result<Option<usize>, AllocError>
    requires k { IsSize k }
    requires levels { IsLevelCount levels }
    requires few { length entries.now < 2 ^ 62 }
    ensures legal { IfOk result (λ stop. IfNone stop (IsLegalHistory k levels entries.now)) }
    ensures stops { IfOk result (λ stop. IfSome stop (StopsAt k levels entries.now)) }
{
    let mut state = PlainState::start(alloc, k, levels)?;
    for i in 0..entries.len() {
        if !follows(alloc, &mut state, entries[i])? {
            return Ok(Some(i));
        }
    }
    Ok(None)
}

// Whether an entry's pass is there, and a state with this many levels can take its event.
fn is_played(levels: u8, entry: &Entry) -> bool
    ensures value { IsTrue result ↔ IsPlayed levels entry.now }
{
    entry.pass < 16 && is_taken(levels, entry.event)
}

/// Whether the pass of each entry is there, and a state with this many levels can take its event.
pub fn are_played(levels: u8, entries: &[Entry]) -> bool
    ensures value { IsTrue result ↔ All (IsPlayed levels) entries.now }
{
    entries.iter().all(|entry| is_played(levels, entry))
}

/// The state of a history, for K from 4 to 8 and 1 to 12 levels. It fails where memory runs out.
pub fn state_of_history(
    alloc: Global,
    k: u8,
    levels: u8,
    entries: &[Entry],
) -> Result<PlainState, AllocError>
    requires k { IsSize k }
    requires levels { IsLevelCount levels }
    requires few { length entries.now < 2 ^ 62 }
    requires played { All (IsPlayed levels) entries.now }
    ensures value { IfOk result (λ state. state ≡ state_of_history k levels entries.now) }
{
    let mut state = PlainState::start(alloc, k, levels)?;
    for entry in entries {
        state.step(alloc, entry.pass, entry.event)?;
    }
    Ok(state)
}

// How many of some passes have a job or a frame.
fn working(passes: &[Work<PlainFrame>]) -> usize
    ensures value { result ≡ count_by has_work passes.now }
{
    passes.iter().filter(|pass| has_work(pass)).count()
}

/// The places that a history takes in a journal: its entries, and one for each pass that has a job or a
/// frame. It fails where memory runs out.
#[tactic(auto, unfolding(plan_model::specs::Histories::places))]
pub fn places(alloc: Global, k: u8, levels: u8, entries: &[Entry]) -> Result<usize, AllocError>
    requires k { IsSize k }
    requires levels { IsLevelCount levels }
    requires few { length entries.now < 2 ^ 62 }
    requires played { All (IsPlayed levels) entries.now }
    ensures value { IfOk result (λ n. n ≡ places k levels entries.now) }
{
    let state = state_of_history(alloc, k, levels, entries)?;
    Ok(entries.len() + working(state.passes()))
}

// Whether the event is a move.
fn is_move(event: Event) -> bool
    ensures value { result ≡ is_move event }
{
    match event {
        Event::Move { .. } => true,
        _ => false,
    }
}

/// How many moves a history has.
#[tactic(auto, unfolding(plan_model::specs::Histories::moves))]
pub fn moves(entries: &[Entry]) -> usize
    ensures value { result ≡ moves entries.now }
{
    entries.iter().filter(|entry| is_move(entry.event)).count()
}
