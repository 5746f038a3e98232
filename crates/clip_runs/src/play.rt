//! The steps of a play script.

ghost use Rattle.std.specs.Prelude.{◌≡◌, ◌<◌, ◌≤◌, ◌∷◌, [], ◌^◌, All, OnOk, length, string_bytes};
ghost use Rattle.outer_shelf.specs.Counts.{Rose};
ghost use Rattle.plan_model.specs.States.{frame_of, pass_at};
ghost use Rattle.plan_model.specs.Steps.{step};
ghost use Rattle.plan_model.specs.declared.events.Event.TheVariants.{End};
ghost use Rattle.clip_script.specs.Ranges.{AreSizes, IsAsked, IsStep};
ghost use Rattle.clip_script.specs.Texts.{log_line};
ghost use Rattle.run_actions.specs.Actions.{Put, Write};
ghost use Rattle.run_actions.specs.Runs.{CallsWithin, HadReason, OnHalt, Ran, WriteEnds};
ghost use Rattle.clip_desk.specs.Desks.{Goes};
ghost use Rattle.clip_desk.specs.Lines.{view_line};
ghost use Rattle.clip_desk.specs.Plays.{end_actions, end_seen_actions, event_actions};
ghost use Rattle.clip_desk.specs.Plays.{play_actions, step_actions, steps_actions};
ghost use Rattle.clip_runs.specs.Stages.{HasTaken, is_end, scene_of};

use clip_desk::{
    Desk, Means, draw_seen, draw_whole, event_line, put_numbered, unseen_line, view_line,
};
use clip_script::{PlayScript, Step, View};
use decode_workers::Filler;
use outer_shelf::{Shelf, Sink};
use plan_holds::steps_go_on;
use plan_model::Event;
use run_actions::{Halt, write};
use std::alloc::Global;
use std::mem;
use std::thread::Threads;

// A play between two steps: its book, and the view.
#[derive(Drop)]
pub(crate) struct Stage {
    pub(crate) desk: Desk,
    pub(crate) view: View,
    // The text of the latest whole frame, whose room the next one uses again.
    text: Vec<u8>,
}

// Whether an event is the end of a frame.
fn is_end(event: Event) -> bool
    ensures { result ≡ is_end event }
{
    match event {
        Event::Move { .. } | Event::Claim | Event::Finish | Event::Publish { .. } | Event::Begin =>
            false,
        Event::End => true,
    }
}

// Takes an event of a pass, and writes its line.
fn take_event<R: Threads + Sync, F: Filler, K: Sink>(
    means: &Means<'_, R, F>,
    desk: &mut Desk,
    pass: u8,
    event: Event,
    out: &mut K,
) -> Result<(), Halt>
    requires land { F.land means.now.filler.now ≡ desk.old.land }
    requires asked { IsAsked (length desk.old.plan.state.levels) pass event }

    // There is room for the event.
    requires moves { desk.old.plan.moves < 2 ^ 40 }
    requires begun { desk.old.plan.state.begun < 2 ^ 40 }

    // The event is done, and its line is written or a front of it.
    ensures goes { Goes pass event desk.old desk.new }
    ensures ends { WriteEnds (log_line pass event (step desk.old.plan.state pass event).answer) result
        (K.told out.old).written (K.told out.new).written }

    // There is at most one write, and a halt has its reason.
    ensures calls { CallsWithin 1 (K.told out.old).calls (K.told out.new).calls }
    ensures reason { OnHalt result ⊥ (Rose (K.told out.old).faults (K.told out.new).faults) }
    ensures faults_stay { (K.told out.old).faults ≤ (K.told out.new).faults }
{
    let answer = desk.take(means.filler, pass, event);
    match event_line(means.alloc, pass, event, answer) {
        Ok(line) => write(out, line.as_slice()),
        Err(_) => Err(Halt::NoMemory),
    }
}

// Pass `pass` ends its frame, which is put, and the line of the end is written.
fn end_frame<R: Threads + Sync, F: Filler, S: Shelf, K: Sink>(
    means: &Means<'_, R, F>,
    stage: &mut Stage,
    pass: u8,
    shelf: &mut S,
    out: &mut K,
) -> Result<(), Halt>
    requires land { F.land means.now.filler.now ≡ stage.old.desk.land }
    requires asked { IsAsked (length stage.old.desk.plan.state.levels) pass End }

    // There is room for the event.
    requires moves { stage.old.desk.plan.moves < 2 ^ 40 }
    requires begun { stage.old.desk.plan.state.begun < 2 ^ 40 }

    // The event is done, and the view stays.
    ensures goes { OnOk result (Goes pass End stage.old.desk stage.new.desk) }
    ensures view { OnOk result (stage.new.view ≡ stage.old.view) }

    // It puts and writes what the definition says, or a front of that for a reason.
    ensures ran { Ran S.leaves 0
        (end_actions stage.old.desk.land.terrain means.now.name.now stage.old.desk.plan.state.k pass
        (frame_of (pass_at stage.old.desk.plan.state pass))) result
        (S.told shelf.old) (S.told shelf.new) (K.told out.old) (K.told out.new) }
    ensures reason { HadReason result (S.told shelf.old) (S.told shelf.new) (K.told out.old) (K.told out.new) }
{
    match stage.desk.book().frame_of(pass) {
        Some(note) => {
            let text = mem::replace(&mut stage.text, Vec::new(means.alloc));
            match draw_whole(means.rt, means.alloc, text, stage.desk.book(), pass, &note) {
                Ok(drawn) => {
                    let _ = stage.desk.take(means.filler, pass, Event::End);
                    let done = put_numbered(
                        means.alloc,
                        means.name,
                        note.number,
                        &drawn,
                        shelf,
                        out,
                    );
                    stage.text = drawn.text;
                    done
                }
                Err(_) => Err(Halt::NoMemory),
            }
        }
        None => take_event(means, &mut stage.desk, pass, Event::End, out),
    }
}

// Takes an event of a pass: a frame that ends is put. Then the line is written.
fn take_book<R: Threads + Sync, F: Filler, S: Shelf, K: Sink>(
    means: &Means<'_, R, F>,
    stage: &mut Stage,
    pass: u8,
    event: Event,
    shelf: &mut S,
    out: &mut K,
) -> Result<(), Halt>
    requires land { F.land means.now.filler.now ≡ stage.old.desk.land }
    requires asked { IsAsked (length stage.old.desk.plan.state.levels) pass event }

    // There is room for the event.
    requires moves { stage.old.desk.plan.moves < 2 ^ 40 }
    requires begun { stage.old.desk.plan.state.begun < 2 ^ 40 }

    // The event is done, and the view stays.
    ensures goes { OnOk result (Goes pass event stage.old.desk stage.new.desk) }
    ensures view { OnOk result (stage.new.view ≡ stage.old.view) }

    // It puts and writes what the definition says, or a front of that for a reason.
    ensures ran { Ran S.leaves 0
        (event_actions stage.old.desk.land.terrain means.now.name.now stage.old.desk.plan.state pass event) result
        (S.told shelf.old) (S.told shelf.new) (K.told out.old) (K.told out.new) }
    ensures reason { HadReason result (S.told shelf.old) (S.told shelf.new) (K.told out.old) (K.told out.new) }
{
    if is_end(event) {
        end_frame(means, stage, pass, shelf, out)
    } else {
        take_event(means, &mut stage.desk, pass, event, out)
    }
}

// Pass `pass` ends its frame, of which the parts that the view keeps are put, and the line of the end is written.
fn end_seen<R: Threads + Sync, F: Filler, S: Shelf, K: Sink>(
    means: &Means<'_, R, F>,
    stage: &mut Stage,
    pass: u8,
    shelf: &mut S,
    out: &mut K,
) -> Result<(), Halt>
    requires land { F.land means.now.filler.now ≡ stage.old.desk.land }
    requires asked { IsAsked (length stage.old.desk.plan.state.levels) pass End }

    // There is room for the event.
    requires moves { stage.old.desk.plan.moves < 2 ^ 40 }
    requires begun { stage.old.desk.plan.state.begun < 2 ^ 40 }

    // The event is done, and the view stays.
    ensures goes { OnOk result (Goes pass End stage.old.desk stage.new.desk) }
    ensures view { OnOk result (stage.new.view ≡ stage.old.view) }

    // It puts and writes what the definition says, or a front of that for a reason.
    ensures ran { Ran S.leaves 0
        (end_seen_actions stage.old.desk.land.terrain means.now.name.now stage.old.desk.plan.state.k
        stage.old.view pass (frame_of (pass_at stage.old.desk.plan.state pass))) result
        (S.told shelf.old) (S.told shelf.new) (K.told out.old) (K.told out.new) }
    ensures reason { HadReason result (S.told shelf.old) (S.told shelf.new) (K.told out.old) (K.told out.new) }
{
    match stage.desk.book().frame_of(pass) {
        Some(note) => match draw_seen(means.alloc, stage.desk.book(), pass, &note, &stage.view) {
            Ok(drawn) => {
                let _ = stage.desk.take(means.filler, pass, Event::End);
                put_numbered(means.alloc, means.name, note.number, &drawn, shelf, out)
            }
            Err(_) => Err(Halt::NoMemory),
        },
        None => {
            let _ = stage.desk.take(means.filler, pass, Event::End);
            match unseen_line(means.alloc, pass) {
                Ok(line) => write(out, line.as_bytes()),
                Err(_) => Err(Halt::NoMemory),
            }
        }
    }
}

// Takes a view, and writes its line.
fn see<K: Sink>(alloc: Global, view: &mut View, seen: &View, out: &mut K) -> Result<(), Halt>
    ensures view { view.new ≡ seen.now }
    ensures ends { WriteEnds (view_line seen.now) result (K.told out.old).written (K.told out.new).written }
    ensures calls { CallsWithin 1 (K.told out.old).calls (K.told out.new).calls }
    ensures reason { OnHalt result ⊥ (Rose (K.told out.old).faults (K.told out.new).faults) }
    ensures faults_stay { (K.told out.old).faults ≤ (K.told out.new).faults }
{
    *view = *seen;
    match view_line(alloc, seen) {
        Ok(line) => write(out, line.as_bytes()),
        Err(_) => Err(Halt::NoMemory),
    }
}

// Takes a step: the event is done, then its file is put, then its line is written.
fn take_step<R: Threads + Sync, F: Filler, S: Shelf, K: Sink>(
    means: &Means<'_, R, F>,
    stage: &mut Stage,
    step: &Step,
    shelf: &mut S,
    out: &mut K,
) -> Result<(), Halt>
    requires land { F.land means.now.filler.now ≡ stage.old.desk.land }
    requires step { IsStep (length stage.old.desk.plan.state.levels) step.now }

    // There is room for the step.
    requires moves { stage.old.desk.plan.moves < 2 ^ 40 }
    requires begun { stage.old.desk.plan.state.begun < 2 ^ 40 }

    // The step is done; it puts and writes what the definition says, or a front of that for a reason.
    ensures taken { OnOk result (HasTaken step.now stage.old stage.new) }
    ensures ran { Ran S.leaves 0
        (step_actions stage.old.desk.land.terrain means.now.name.now (scene_of stage.old) step.now) result
        (S.told shelf.old) (S.told shelf.new) (K.told out.old) (K.told out.new) }
    ensures reason { HadReason result (S.told shelf.old) (S.told shelf.new) (K.told out.old) (K.told out.new) }
{
    steps_go_on();
    match *step {
        Step::Book { pass, event } => take_book(means, stage, pass, event, shelf, out),
        Step::See(view) => see(means.alloc, &mut stage.view, &view, out),
        Step::EndSeen { pass } => end_seen(means, stage, pass, shelf, out),
    }
}

// Takes steps, one after another.
fn take_steps<R: Threads + Sync, F: Filler, S: Shelf, K: Sink>(
    means: &Means<'_, R, F>,
    stage: &mut Stage,
    steps: &[Step],
    shelf: &mut S,
    out: &mut K,
) -> Result<(), Halt>
    requires land { F.land means.now.filler.now ≡ stage.old.desk.land }
    requires steps { All (IsStep (length stage.old.desk.plan.state.levels)) steps.now }
    requires few { length steps.now ≤ 1048577 }

    // The book is at its start.
    requires moves { stage.old.desk.plan.moves ≡ 0 }
    requires begun { stage.old.desk.plan.state.begun ≡ 0 }

    // They put and write what the definition says, or a front of that for a reason.
    ensures ran { Ran S.leaves 0
        (steps_actions stage.old.desk.land.terrain means.now.name.now (scene_of stage.old) steps.now) result
        (S.told shelf.old) (S.told shelf.new) (K.told out.old) (K.told out.new) }
    ensures reason { HadReason result (S.told shelf.old) (S.told shelf.new) (K.told out.old) (K.told out.new) }
{
    for step in steps {
        take_step(means, stage, step, shelf, out)?;
    }
    Ok(())
}

// Takes the steps of a play script, one after another.
#[tactic(auto, unfolding(clip_desk::specs::Plays::play_actions))]
pub(crate) fn play<R: Threads + Sync, F: Filler, S: Shelf, K: Sink>(
    means: &Means<'_, R, F>,
    script: &PlayScript,
    shelf: &mut S,
    out: &mut K,
) -> Result<(), Halt>
    requires sizes { AreSizes script.now.k script.now.levels }
    requires steps { All (IsStep script.now.levels) script.now.steps.items }
    requires few { length script.now.steps.items ≤ 1048577 }
    requires levels { script.now.levels ≡ (F.land means.now.filler.now).levels }
    ensures ran { Ran S.leaves 0
        (play_actions (F.land means.now.filler.now).terrain script.now.k script.now.levels script.now.steps.items
        means.now.name.now) result
        (S.told shelf.old) (S.told shelf.new) (K.told out.old) (K.told out.new) }
    ensures reason { HadReason result (S.told shelf.old) (S.told shelf.new) (K.told out.old) (K.told out.new) }
{
    match Desk::start(means.alloc, means.filler.shape(), script.k) {
        Ok(desk) => {
            let mut stage = Stage {
                desk,
                view: View::empty(),
                text: Vec::new(means.alloc),
            };
            let steps = script.steps.as_slice();
            take_steps(means, &mut stage, steps, shelf, out)
        }
        Err(_) => Err(Halt::NoMemory),
    }
}
