//! The log of a script.

ghost use Rattle.std.specs.Prelude.{◌≡◌, ◌^◌, ◌<◌, All, IfErr, IfOk, Ok, flat_map, length};
ghost use Rattle.clip_script.specs.Scripts.{play_view};
ghost use Rattle.clip_script.specs.Ranges.{AreSizes, IsStep};
ghost use Rattle.plan_model.specs.Limits.{IsSize, IsLevelCount};
ghost use Rattle.plan_plain.specs.Asked.{IsAsked};
ghost use Rattle.plan_log.specs.Logs.{EndsBy, entry_line, log_of, play_log, script_log};

use crate::events::{ask_view, events_of};
use crate::halt::Halt;
use clip_script::{NoMemory, PlayScript, ScriptFault, read_play, view_line, write_log};
use plan_model::Entry;
use plan_plain::{PlainAsked, PlainState, run};
use std::alloc::Global;

// The log line of each entry of a history.
fn text_of(alloc: Global, history: &[Entry]) -> Result<Vec<u8>, NoMemory>
    ensures text { IfOk result (λ text. text.items ≡ flat_map entry_line history.now) }
{
    let mut text = Vec::new(alloc);
    for entry in history {
        write_log(&mut text, entry.pass, &entry.event, &entry.answer)?;
    }
    Ok(text)
}

// The log of events from the start state.
#[tactic(auto, unfolding(crate::specs::Logs::log_of))]
fn log_of(alloc: Global, k: u8, levels: u8, events: &[PlainAsked]) -> Result<Vec<u8>, Halt>
    requires k { IsSize k }
    requires levels { IsLevelCount levels }
    requires few { length events.now < 2 ^ 62 }
    requires events { All (IsAsked levels) events.now }
    ensures text { IfOk result (λ text. text.items ≡ log_of k levels events.now) }
    ensures no_memory { IfErr result (λ halt. halt ≡ Halt.NoMemory) }
{
    let state = PlainState::start(alloc, k, levels)?;
    let run = run(alloc, state, events)?;
    let text = text_of(alloc, run.history())?;
    Ok(text)
}

// The log of a script that was read from these bytes.
#[tactic(auto, unfolding(crate::specs::Logs::play_log))]
fn play_log(alloc: Global, bytes: &[u8], script: &PlayScript) -> Result<Vec<u8>, Halt>
    requires sizes { AreSizes script.now.k script.now.levels }
    requires steps { All (IsStep script.now.levels) script.now.steps.items }
    ensures text { IfOk result (λ text. play_log bytes.now (play_view script.now) ≡ Ok text.items) }
    ensures halt { IfErr result (EndsBy (play_log bytes.now (play_view script.now))) }
{
    if ask_view(script.steps.as_slice()) {
        return Err(Halt::Line(view_line(bytes)));
    }
    let events = events_of(alloc, script.steps.as_slice())?;
    log_of(alloc, script.k, script.levels, events.as_slice())
}

// The log of the script that these bytes are.
#[tactic(auto, unfolding(crate::specs::Logs::script_log))]
pub(crate) fn script_log(alloc: Global, bytes: &[u8]) -> Result<Vec<u8>, Halt>
    ensures text { IfOk result (λ text. script_log bytes.now ≡ Ok text.items) }
    ensures halt { IfErr result (EndsBy (script_log bytes.now)) }
{
    match read_play(alloc, bytes) {
        Ok(script) => play_log(alloc, bytes, &script),
        Err(fault) => Err(Halt::of_fault(fault)),
    }
}
