//! What each pass does.

ghost use Rattle.std.specs.Prelude.{◌≡◌, ◌<◌, ◌≤◌, IfOk};
ghost use Rattle.swarm_passes.specs.Playing.{IsStarted};
ghost use Rattle.clip_swarm.specs.Playing.{IsScriptFor, IsPlayed, asked_of, passes_of};

use crate::crew::{Crew, Ground, Outcome};
use crate::drawing::make_frames;
use crate::working::{make_claims, make_moves};
use clip_gate::{Clip, Pass};
use clip_script::SwarmScript;
use decode_rounds::Post;
use decode_workers::Filler;
use obj_frames::NoMemory;
use std::alloc::Global;
use std::sync::Wait;

// Makes all moves.
fn move_all(
    rt: &impl Wait,
    alloc: Global,
    clip: &Clip,
    script: &SwarmScript,
    crew: Crew,
    pass: Pass,
) -> Outcome
    requires script { IsScriptFor script.now clip.now }
    requires started { IsStarted clip.now pass.number pass }
    requires first { pass.number ≡ 0 }
    ensures played { IsPlayed (asked_of script.now crew) clip.now pass.number result }
    ensures left { result.pass.left ≡ pass.left }
{
    let mut pass = pass;
    let _number = pass.number();
    let full = make_moves(rt, clip, &mut pass, &script.moves);
    Outcome {
        pass,
        frames: Vec::new(alloc),
        full,
    }
}

// Makes the claims of a worker.
fn work<F: Filler>(
    rt: &impl Wait,
    alloc: Global,
    clip: &Clip,
    filler: &F,
    script: &SwarmScript,
    crew: Crew,
    pass: Pass,
) -> Outcome
    requires land { clip.now.land ≡ F.land filler.now }
    requires started { IsStarted clip.now pass.number pass }
    requires low { 0 < pass.number }
    requires high { pass.number ≤ crew.workers }
    ensures played { IsPlayed (asked_of script.now crew) clip.now pass.number result }
    ensures left { result.pass.left ≡ pass.left }
{
    let mut pass = pass;
    let _number = pass.number();
    let full = make_claims(rt, clip, filler, &mut pass, script.claims);
    Outcome {
        pass,
        frames: Vec::new(alloc),
        full,
    }
}

// Makes the frames of a renderer.
fn render(
    rt: &impl Wait,
    alloc: Global,
    clip: &Clip,
    script: &SwarmScript,
    crew: Crew,
    pass: Pass,
) -> Result<Outcome, NoMemory>
    requires script { IsScriptFor script.now clip.now }
    requires started { IsStarted clip.now pass.number pass }
    requires low { crew.workers < pass.number }
    requires high { pass.number < passes_of crew }
    ensures played { IfOk result (IsPlayed (asked_of script.now crew) clip.now pass.number) }
    ensures left { IfOk result (λ outcome. outcome.pass.left ≡ pass.left) }
{
    let mut pass = pass;
    let _number = pass.number();
    let mut frames = Vec::new(alloc);
    let (k, begins) = (script.k, script.begins);
    let full = make_frames(rt, alloc, clip, &mut pass, k, begins, &mut frames)?;
    Ok(Outcome { pass, frames, full })
}

// Does what the pass of its number is to do: pass 0 is the mover, the workers come after it, and then the renderers.
fn act<F: Filler>(
    rt: &impl Wait,
    alloc: Global,
    clip: &Clip,
    filler: &F,
    script: &SwarmScript,
    crew: Crew,
    pass: Pass,
) -> Result<Outcome, NoMemory>
    requires land { clip.now.land ≡ F.land filler.now }
    requires script { IsScriptFor script.now clip.now }
    requires started { IsStarted clip.now pass.number pass }
    requires high { pass.number < passes_of crew }
    ensures played { IfOk result (IsPlayed (asked_of script.now crew) clip.now pass.number) }
    ensures left { IfOk result (λ outcome. outcome.pass.left ≡ pass.left) }
{
    let number = pass.number();
    if number == 0 {
        return Ok(move_all(rt, alloc, clip, script, crew, pass));
    }
    if number <= crew.workers {
        return Ok(work(rt, alloc, clip, filler, script, crew, pass));
    }
    render(rt, alloc, clip, script, crew, pass)
}

// Does what a pass is to do, and tells of it.
pub(crate) fn told<F: Filler, P: Post>(
    rt: &impl Wait,
    ground: &Ground<'_>,
    filler: &F,
    post: &P,
    pass: Pass,
) -> Result<Outcome, NoMemory>
    requires land { ground.now.clip.now.land ≡ F.land filler.now }
    requires script { IsScriptFor ground.now.script.now ground.now.clip.now }
    requires started { IsStarted ground.now.clip.now pass.number pass }
    requires high { pass.number < passes_of ground.now.crew }
    ensures played { IfOk result
        (IsPlayed (asked_of ground.now.script.now ground.now.crew) ground.now.clip.now pass.number) }
    ensures left { IfOk result (λ outcome. outcome.pass.left ≡ pass.left) }
{
    let task = usize::from(pass.number());
    post.begun(task);
    let outcome = act(
        rt,
        ground.alloc,
        ground.clip,
        filler,
        ground.script,
        ground.crew,
        pass,
    );
    post.ended(task);
    outcome
}
