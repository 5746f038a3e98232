//! What came of all activities, together.

ghost use Rattle.std.specs.Prelude.{◌≡◌, ◌+◌, ◌<◌, ◌≤◌, IfOk, OnOk, length};
ghost use Rattle.swarm_passes.specs.Playing.{left_from};
ghost use Rattle.clip_swarm.specs.Playing.{asked_of, passes_of, IsPlayed, ArePlayed, FirstHasLeft, IsGathered};

use crate::crew::{Crew, Outcome};
use clip_gate::Clip;
use clip_script::SwarmScript;
use obj_frames::NoMemory;
use std::sync::Wait;

// The outcome of pass `number` is put to those of the passes before it: its pass is taken over, and its frames come
// behind the others.
fn take(
    rt: &impl Wait,
    clip: &Clip,
    script: &SwarmScript,
    crew: Crew,
    all: &mut Outcome,
    number: u8,
    other: Outcome,
) -> Result<(), NoMemory>
    requires all { IsGathered (asked_of script.now crew) clip.now (passes_of crew) number all.old }
    requires other { IsPlayed (asked_of script.now crew) clip.now number other }
    ensures { OnOk result (IsGathered (asked_of script.now crew) clip.now (passes_of crew) (number + 1) all.new) }
{
    let Outcome {
        pass,
        mut frames,
        full,
    } = other;
    let _number = pass.number();
    clip.join(rt, &mut all.pass, pass);
    all.full = all.full || full;
    all.frames.append(&mut frames)?;
    Ok(())
}

// All outcomes as one.
pub(crate) fn gathered(
    rt: &impl Wait,
    clip: &Clip,
    script: &SwarmScript,
    crew: Crew,
    outcomes: Vec<Result<Outcome, NoMemory>>,
) -> Result<Outcome, NoMemory>
    requires few { crew.workers + crew.renderers ≤ 15 }
    requires count { length outcomes.items ≡ passes_of crew }
    requires played { ArePlayed (asked_of script.now crew) clip.now 0 outcomes.items }
    requires left { FirstHasLeft (left_from (passes_of crew)) outcomes.items }
    ensures { IfOk result (IsGathered (asked_of script.now crew) clip.now (passes_of crew) (passes_of crew)) }
{
    let mut rest = outcomes;
    let mut all = rest.remove(0)?;
    let _number = all.pass.number();
    let mut number = 1u8;
    for done in rest {
        take(rt, clip, script, crew, &mut all, number, done?)?;
        number = number.saturating_add(1);
    }
    Ok(all)
}
