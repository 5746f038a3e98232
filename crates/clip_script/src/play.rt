//! Play scripts.

ghost use Rattle.std.specs.Prelude.{◌≡◌, ◌⊎◌, ◌≤◌, ℕ, All, Ok, Err, IfOk, IfErr, IfSome, vec_len};
ghost use Rattle.plan_model.specs.Sound.{IsTaken};
ghost use Rattle.clip_script.specs.Lines.{words_after};
ghost use Rattle.clip_script.specs.Ranges.{AreSizes, IsStep};
ghost use Rattle.clip_script.specs.Scripts.{play_of, play_view};
ghost use Rattle.clip_script.specs.Steps.{end_seen, moved, passed, published, seen, step_named, step_of};

use crate::cut::first_word;
use crate::fault::ScriptFault;
use crate::lines::{Grammar, read_all};
use crate::numbers::{one_number, pass_of, place_of};
use crate::sizes::{count_lines, read_size};
use crate::spaces::view_of;
use crate::step::Step;
use plan_model::Event;
use std::alloc::Global;

/// A play script: what is asked of a book, step by step.
#[derive(Drop)]
pub struct PlayScript {
    /// The size of the grids: 2^k − 1 vertices a side; from 4 to 8.
    pub k: u8,
    /// The number of levels, from 1 to 12.
    pub levels: u8,
    /// The steps, in their order.
    pub steps: Vec<Step>,
}

// The lines of the steps of a play script with this many levels.
#[derive(Drop)]
struct StepLines {
    levels: u8,
    ghost some: { 1 ≤ levels },
}

// An event of a pass, by the pass's number.
fn passed(rest: &[u8], event: Event) -> Option<Step>
    requires plain { (levels : ℕ) → IsTaken levels event }
    ensures value { result ≡ passed event (words_after rest.now) }
    ensures range { (levels : ℕ) → IfSome result (IsStep levels) }
{
    let pass = pass_of(rest)?;
    Some(Step::Book { pass, event })
}

// A move, which is taken as pass 0's.
fn moved(rest: &[u8]) -> Option<Step>
    ensures value { result ≡ moved (words_after rest.now) }
    ensures range { (levels : ℕ) → IfSome result (IsStep levels) }
{
    let place = place_of(rest)?;
    let event = Event::Move {
        x: place.x,
        y: place.y,
        a: place.a,
    };
    Some(Step::Book { pass: 0, event })
}

// A publication, likewise.
fn published(rest: &[u8], levels: u8) -> Option<Step>
    requires { 1 ≤ levels }
    ensures value { result ≡ published levels (words_after rest.now) }
    ensures range { IfSome result (IsStep levels) }
{
    let level = one_number(rest, 0, u64::from(levels - 1))?;
    let event = Event::Publish { level: level as u8 };
    Some(Step::Book { pass: 0, event })
}

// A view.
fn seen(rest: &[u8]) -> Option<Step>
    ensures value { result ≡ seen (words_after rest.now) }
    ensures range { (levels : ℕ) → IfSome result (IsStep levels) }
{
    let view = view_of(rest)?;
    Some(Step::See(view))
}

// The end of a frame of which only a part is written.
fn end_seen(rest: &[u8]) -> Option<Step>
    ensures value { result ≡ end_seen (words_after rest.now) }
    ensures range { (levels : ℕ) → IfSome result (IsStep levels) }
{
    let pass = pass_of(rest)?;
    Some(Step::EndSeen { pass })
}

// The step of a line, by its first word and what stands behind it.
#[tactic(auto, unfolding(crate::specs::Steps::step_named))]
fn step_named(name: &[u8], rest: &[u8], levels: u8) -> Option<Step>
    requires { 1 ≤ levels }
    ensures value { result ≡ step_named levels name.now (words_after rest.now) }
    ensures range { IfSome result (IsStep levels) }
{
    if name == b"claim".as_slice() {
        passed(rest, Event::Claim)
    } else if name == b"finish".as_slice() {
        passed(rest, Event::Finish)
    } else if name == b"move".as_slice() {
        moved(rest)
    } else if name == b"publish".as_slice() {
        published(rest, levels)
    } else if name == b"begin".as_slice() {
        passed(rest, Event::Begin)
    } else if name == b"end".as_slice() {
        passed(rest, Event::End)
    } else if name == b"see".as_slice() {
        seen(rest)
    } else if name == b"endseen".as_slice() {
        end_seen(rest)
    } else {
        None
    }
}

impl Grammar<Step> for StepLines {
    ghost says = { λ kind line. step_of kind.levels line };

    ghost fits = { λ kind step. IsStep kind.levels step };

    #[tactic(auto, unfolding(crate::specs::Steps::step_of))]
    fn read(&self, line: &[u8]) -> Option<Step> {
        let word = first_word(line);
        step_named(word.front, word.rest, self.levels)
    }
}

/// The play script that these bytes are.
///
/// [`ScriptFault::TooMany`] comes exactly where there are more than [`LINE_LIMIT`](crate::LINE_LIMIT) lines; else
/// [`ScriptFault::BadLine`] exactly where some line isn't allowed at its place, with the first of these.
pub fn read_play(alloc: Global, bytes: &[u8]) -> Result<PlayScript, ScriptFault>
    ensures script { IfOk result (λ script. play_of bytes.now ≡ Ok (play_view script)) }
    ensures sizes { IfOk result (λ script. AreSizes script.k script.levels) }
    ensures steps { IfOk result (λ script. All (IsStep script.levels) script.steps.items) }
    ensures few { IfOk result (λ script. vec_len script.steps ≤ 1048577) }
    ensures fault { IfErr result (λ fault. (fault ≡ ScriptFault.NoMemory) ⊎ (play_of bytes.now ≡ Err fault)) }
{
    count_lines(bytes)?;
    let size = read_size(bytes)?;
    let levels = size.said.second as u8;
    let steps = read_all(alloc, &StepLines { levels }, size.left)?;
    Ok(PlayScript {
        k: size.said.first as u8,
        levels,
        steps,
    })
}
