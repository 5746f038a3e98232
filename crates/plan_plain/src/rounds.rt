//! A flight: rounds in which workers claim and fill pieces and one pass draws a frame.

ghost use Rattle.std.specs.Prelude.{◌≡◌, ℕ, ◌+◌, ◌*◌, ◌^◌, ◌<◌, ◌≤◌, IfOk, OnOk, All, length, fold};
ghost use Rattle.std.specs.List.{range_with_len};
ghost use Rattle.plan_model.specs.Limits.{IsSize, IsLevelCount};
ghost use Rattle.plan_model.specs.States.{from_coarsest};
ghost use Rattle.plan_model.specs.Steps.{step};
ghost use Rattle.plan_model.specs.Histories.{then_step};
ghost use Rattle.plan_model.specs.Rounds.{is_job, claims, finish_of, finishes, ending, is_ripe, publish_of, publishes, round, is_settled, rounds, unfilled_cells, cells_to_fill, settle, fly_line, flight, fly_events};
ghost use Rattle.plan_model.specs.Sound.{IsReady, IsTaken};
ghost use Rattle.plan_plain.specs.SoundRuns.{IsSoundRun, IsFlown};
ghost use Rattle.plan_plain.specs.Asked.{asked_of};
ghost use Rattle.plan_plain.specs.Flights.{IsAfter};

use crate::runs::{PlainAsked, PlainRun, events_of};
use plan_model::{Answer, Event, FlyLine};
use plan_plain_steps::PlainState;
use plan_sound::filled_regions_are_near;
use std::alloc::{AllocError, Global};

// The pass that draws the frames of a flight.
const FRAME_PASS: u8 = 15;

// Whether the answer gives a job.
fn is_job(answer: Answer) -> bool
    ensures value { result ≡ is_job answer }
{
    match answer {
        Answer::Job { .. } => true,
        _ => false,
    }
}

// One more event of pass p.
fn step(alloc: Global, run: &mut PlainRun, p: u8, event: Event) -> Result<Answer, AllocError>
    requires sound { IsSoundRun run.old }
    requires few { length run.old.history < 2 ^ 62 }
    requires pass { p < 16 }
    requires taken { IsTaken (length run.old.state.levels) event }

    // It is the step of the definition.
    ensures value { OnOk result (run.new ≡ then_step run.old p event) }
    ensures answer { IfOk result (λ answer. answer ≡ (step run.old.state p event).answer) }
    ensures after { IsAfter 1 run.old run.new }
{
    run.then_step(alloc, p, event)
}

// The passes below a number claim in turn, up to the first answer that isn't a job.
fn claims(alloc: Global, run: &mut PlainRun, workers: u8) -> Result<(), AllocError>
    requires sound { IsSoundRun run.old }
    requires few { length run.old.history < 2 ^ 61 }
    requires workers { workers < 16 }
    ensures value { OnOk result (run.new ≡ claims run.old (range_with_len 0 workers)) }
    ensures after { IsAfter 16 run.old run.new }
{
    for p in 0..workers {
        let answer = step(alloc, run, p, Event::Claim)?;
        if !is_job(answer) {
            return Ok(());
        }
    }
    Ok(())
}

// Pass p gives its job back, where it has one.
#[tactic(auto, unfolding(plan_model::specs::Rounds::finish_of))]
fn finish_of(alloc: Global, run: &mut PlainRun, p: u8) -> Result<(), AllocError>
    requires sound { IsSoundRun run.old }
    requires few { length run.old.history < 2 ^ 62 }
    requires pass { p < 16 }
    ensures value { OnOk result (run.new ≡ finish_of run.old p) }
    ensures after { IsAfter 1 run.old run.new }
{
    if run.state().job_at(p).is_some() {
        step(alloc, run, p, Event::Finish)?;
    }
    Ok(())
}

// Each pass that has a job gives it back, in the order of the numbers.
fn finishes(alloc: Global, run: &mut PlainRun) -> Result<(), AllocError>
    requires sound { IsSoundRun run.old }
    requires few { length run.old.history < 2 ^ 61 }
    ensures value { OnOk result (run.new ≡ finishes run.old) }
    ensures after { IsAfter 16 run.old run.new }
{
    for p in 0..16 {
        finish_of(alloc, run, p)?;
    }
    Ok(())
}

// The frame ends, where there is one.
#[tactic(auto, unfolding(plan_model::specs::Rounds::ending))]
fn ending(alloc: Global, run: &mut PlainRun) -> Result<(), AllocError>
    requires sound { IsSoundRun run.old }
    requires few { length run.old.history < 2 ^ 62 }
    ensures value { OnOk result (run.new ≡ ending run.old) }
    ensures after { IsAfter 1 run.old run.new }
{
    if run.state().frame_at(FRAME_PASS).is_some() {
        step(alloc, run, FRAME_PASS, Event::End)?;
    }
    Ok(())
}

/// Whether a level has a strip all of whose pieces are finished. It fails where memory runs out.
#[tactic(auto, unfolding(plan_model::specs::Rounds::is_ripe))]
pub fn is_ripe(alloc: Global, state: &PlainState, l: u8) -> Result<bool, AllocError>
    requires sound { IsReady state.now }
    requires level { l < length state.now.levels }
    ensures value { IfOk result (λ ripe. ripe ≡ is_ripe state.now l) }
{
    let strip = state.strip_at(alloc, l)?;
    let unfinished = state.unfinished_pieces(alloc, l)?;
    Ok(strip.is_some() && unfinished.len() == 0)
}

// A level is published, where it is ripe.
#[tactic(auto, unfolding(plan_model::specs::Rounds::publish_of))]
fn publish_of(alloc: Global, run: &mut PlainRun, l: u8) -> Result<(), AllocError>
    requires sound { IsSoundRun run.old }
    requires few { length run.old.history < 2 ^ 62 }
    requires level { l < length run.old.state.levels }
    ensures value { OnOk result (run.new ≡ publish_of run.old l) }
    ensures after { IsAfter 1 run.old run.new }
{
    if is_ripe(alloc, run.state(), l)? {
        step(alloc, run, 0, Event::Publish { level: l })?;
    }
    Ok(())
}

// Each ripe level is published, from the coarsest.
fn publishes(alloc: Global, run: &mut PlainRun) -> Result<(), AllocError>
    requires sound { IsSoundRun run.old }
    requires few { length run.old.history < 2 ^ 61 }
    ensures value { OnOk result (run.new ≡ publishes run.old) }
    ensures after { IsAfter 16 run.old run.new }
{
    let count = run.state().level_count();
    for l in (0..count).rev() {
        publish_of(alloc, run, l)?;
    }
    Ok(())
}

// One round of a flight with a number of workers.
#[tactic(auto, unfolding(plan_model::specs::Rounds::round))]
fn round(alloc: Global, run: &mut PlainRun, workers: u8) -> Result<(), AllocError>
    requires sound { IsSoundRun run.old }
    requires few { length run.old.history < 2 ^ 60 }
    requires workers { workers < 16 }
    ensures value { OnOk result (run.new ≡ round workers run.old) }
    ensures after { IsAfter 64 run.old run.new }
{
    claims(alloc, run, workers)?;
    finishes(alloc, run)?;
    ending(alloc, run)?;
    publishes(alloc, run)
}

/// Whether the filled region of every level in use is its window.
pub fn is_settled(state: &PlainState) -> bool
    requires { IsReady state.now }
    ensures value { result ≡ is_settled state.now }
{
    let mut settled = true;
    for l in state.finest()..state.level_count() {
        let whole = state.is_whole(l);
        settled &= whole;
    }
    settled
}

// Rounds, at most so many, for as long as some level in use isn't whole when the round would
// start.
fn rounds(alloc: Global, run: &mut PlainRun, workers: u8, most: u32) -> Result<(), AllocError>
    requires sound { IsSoundRun run.old }
    requires few { length run.old.history < 2 ^ 59 }
    requires workers { workers < 16 }
    requires most { most < 2 ^ 20 }
    ensures value { OnOk result (run.new ≡ rounds most workers run.old) }
    ensures after { IsAfter (64 * most) run.old run.new }
{
    'flown: for _ in 0..most {
        if is_settled(run.state()) {
            return Ok(());
        }
        round(alloc, run, workers)?;
    }
    Ok(())
}

// How many cells of a level's window its filled region doesn't hold.
#[tactic(auto, unfolding(plan_model::specs::Rounds::unfilled_cells))]
fn unfilled_cells(state: &PlainState, l: u8) -> u64
    requires sound { IsReady state.now }
    requires level { l < length state.now.levels }
    ensures value { result ≡ unfilled_cells state.now l }
    ensures few { result ≤ 2 ^ 16 }
{
    filled_regions_are_near();
    let window = state.window_at(l);
    let filled = window.meet(state.filled_at(l));
    window.area().saturating_sub(filled.area())
}

/// How many cells of the windows of the levels in use no filled region holds.
#[tactic(auto, unfolding(plan_model::specs::Rounds::cells_to_fill))]
pub fn cells_to_fill(state: &PlainState) -> u32
    requires { IsReady state.now }
    ensures value { result ≡ cells_to_fill state.now }
    ensures few { result < 2 ^ 20 }
{
    let mut cells = 0;
    for l in state.finest()..state.level_count() {
        cells += unfilled_cells(state, l) as u32;
    }
    cells
}

// Rounds until all levels in use are whole.
#[tactic(auto, unfolding(plan_model::specs::Rounds::settle))]
fn settle(alloc: Global, run: &mut PlainRun, workers: u8) -> Result<(), AllocError>
    requires sound { IsSoundRun run.old }
    requires few { length run.old.history < 2 ^ 59 }
    requires workers { workers < 16 }
    ensures value { OnOk result (run.new ≡ settle workers run.old) }
    ensures after { IsAfter (2 ^ 26) run.old run.new }
{
    let most = cells_to_fill(run.state());
    rounds(alloc, run, workers, most)
}

// One line of a flight.
fn fly_line(alloc: Global, run: &mut PlainRun, workers: u8, line: FlyLine) -> Result<(), AllocError>
    requires sound { IsSoundRun run.old }
    requires few { length run.old.history < 2 ^ 59 }
    requires workers { workers < 16 }
    requires flown { IsFlown line }
    ensures value { OnOk result (run.new ≡ fly_line workers run.old line) }
    ensures after { IsAfter (2 ^ 26) run.old run.new }
{
    match line {
        FlyLine::Move { x, y, a } => {
            step(alloc, run, 0, Event::Move { x, y, a })?;
            Ok(())
        }
        FlyLine::Frame => {
            step(alloc, run, FRAME_PASS, Event::Begin)?;
            round(alloc, run, workers)
        }
        FlyLine::Settle => settle(alloc, run, workers),
    }
}

/// The flight of a script, for K from 4 to 8, 1 to 12 levels and at most 15 workers. It fails where
/// memory runs out.
#[tactic(auto, unfolding(plan_model::specs::Rounds::flight))]
pub fn flight(
    alloc: Global,
    k: u8,
    levels: u8,
    workers: u8,
    script: &[FlyLine],
) -> Result<PlainRun, AllocError>
    requires k { IsSize k }
    requires levels { IsLevelCount levels }
    requires workers { workers < 16 }
    requires lines { length script.now < 2 ^ 32 }
    requires flown { All IsFlown script.now }

    // It is the flight of the definition, and sound.
    ensures value { IfOk result (λ run. run ≡ flight k levels workers script.now) }
    ensures sound { IfOk result IsSoundRun }
{
    let state = PlainState::start(alloc, k, levels)?;
    let mut run = PlainRun::from_state(alloc, state);
    for line in script {
        fly_line(alloc, &mut run, workers, *line)?;
    }
    Ok(run)
}

/// The events of the flight of a script, for K from 4 to 8, 1 to 12 levels and at most 15 workers. It fails
/// where memory runs out.
#[tactic(auto, unfolding(plan_model::specs::Rounds::fly_events))]
pub fn fly_events(
    alloc: Global,
    k: u8,
    levels: u8,
    workers: u8,
    script: &[FlyLine],
) -> Result<Vec<PlainAsked>, AllocError>
    requires k { IsSize k }
    requires levels { IsLevelCount levels }
    requires workers { workers < 16 }
    requires lines { length script.now < 2 ^ 32 }
    requires flown { All IsFlown script.now }
    ensures value { IfOk result (λ v. asked_of v.items ≡ fly_events k levels workers script.now) }
{
    let run = flight(alloc, k, levels, workers, script)?;
    events_of(alloc, run.history())
}
