//! A run.

ghost use Rattle.std.specs.Prelude.{◌≡◌, ◌+◌, ◌*◌, ◌^◌, ◌<◌, ◌≤◌, true, false, All, IfOk, length};
ghost use Rattle.std.specs.List.Sorted.{IsPermutation, IsNonDecreasingBy};
ghost use Rattle.std.specs.Thread.{IsSync};
ghost use Rattle.plan_model.specs.Limits.{IsSize};
ghost use Rattle.plan_model.specs.Histories.{IsLegalHistory};
ghost use Rattle.clip_script.specs.Ranges.{IsMove};
ghost use Rattle.clip_gate.specs.Passes.{first_pass};
ghost use Rattle.swarm_laws.specs.Runs.{IsSwarmRun, IsCutRun};
ghost use Rattle.swarm_passes.specs.Frames.{AreFramesOf};
ghost use Rattle.swarm_passes.specs.Playing.{left_from, IsStarted, AreStarted, FirstLeaves};
ghost use Rattle.clip_swarm.specs.Playing.{orders_of, asked_of, passes_of, IsScriptFor, IsPlayed, ArePlayed, FirstHasLeft, IsGathered};

use crate::acting::told;
use crate::crew::{Crew, Ground, Outcome};
use crate::frame::SwarmFrame;
use crate::gathering::gathered;
use crate::passes::all_passes;
use clip_gate::{Clip, Journal, Pass};
use clip_script::SwarmScript;
use decode_rounds::Post;
use decode_workers::Filler;
use obj_frames::NoMemory;
use std::alloc::Global;
use std::sync::Wait;
use std::thread::{Threads, map_vec};
use swarm_passes::gathered_passes_are_runs;

/// What came of a run.
#[derive(Drop)]
pub struct SwarmRun {
    /// The events of all passes with their answers.
    pub journal: Journal,
    /// The frames that the journal closes, by rising number.
    pub frames: Vec<SwarmFrame>,
    /// Whether the journal was full, so that a move, a claim, a beginning or a publication is lacking.
    pub full: bool,
}

// A clip of the filler's terrain, with its first pass.
fn started<F: Filler>(
    alloc: Global,
    filler: &F,
    script: &SwarmScript,
) -> Result<(Clip, Pass), NoMemory>
    requires size { IsSize script.now.k }
    requires moves { All IsMove script.now.moves.items }
    ensures land { IfOk result (λ both. both.0.land ≡ F.land filler.now) }
    ensures script { IfOk result (λ both. IsScriptFor script.now both.0) }
    ensures first { IfOk result (λ both. both.1 ≡ first_pass both.0) }
{
    match Clip::start(alloc, filler.shape(), script.k) {
        Ok(both) => Ok(both),
        Err(_) => Err(NoMemory),
    }
}

// The activities of all passes, each on a thread of its own where one can be had.
fn all_done<R: Threads + Wait + Sync, F: Filler + Sync, P: Post + Sync>(
    rt: &R,
    alloc: Global,
    clip: &Clip,
    filler: &F,
    post: &P,
    script: &SwarmScript,
    crew: Crew,
    passes: Vec<Pass>,
) -> Result<Vec<Result<Outcome, NoMemory>>, NoMemory>
    requires land { clip.now.land ≡ F.land filler.now }
    requires script { IsScriptFor script.now clip.now }
    requires count { length passes.items ≡ passes_of crew }
    requires started { AreStarted clip.now 0 passes.items }
    requires left { FirstLeaves (left_from (passes_of crew)) passes.items }

    // Each pass has done of its share what it could, and the first can still split off as many as before.
    ensures count { IfOk result (λ done. length done.items ≡ passes_of crew) }
    ensures played { IfOk result (λ done. ArePlayed (asked_of script.now crew) clip.now 0 done.items) }
    ensures left { IfOk result (λ done. FirstHasLeft (left_from (passes_of crew)) done.items) }
{
    let ground = Ground {
        alloc,
        clip,
        script,
        crew,
    };
    let activity = move |pass: Pass| -> Result<Outcome, NoMemory>
        requires land { ground.clip.now.land ≡ F.land filler.now }
        requires script { IsScriptFor ground.script.now ground.clip.now }
        requires started { IsStarted ground.clip.now pass.number pass }
        requires high { pass.number < passes_of ground.crew }
        ensures played { IfOk result
            (IsPlayed (asked_of ground.entry.script.now ground.entry.crew) ground.entry.clip.now pass.number) }
        ensures left { IfOk result (λ outcome. outcome.pass.left ≡ pass.left) }
    { told(rt, &ground, filler, post, pass) };
    let done = map_vec(rt, passes, &activity)?;
    Ok(done)
}

// The frames by rising number.
fn sorted(frames: Vec<SwarmFrame>) -> Vec<SwarmFrame>
    ensures rising { IsNonDecreasingBy (λ frame. frame.number) result.items }
    ensures same { IsPermutation frames.items result.items }
{
    let mut frames = frames;
    frames.sort_unstable_by_key(|frame| frame.number());
    frames
}

// Ends the clip of a run that is gathered.
fn ended(clip: Clip, script: &SwarmScript, crew: Crew, all: Outcome) -> SwarmRun
    requires few { crew.workers + crew.renderers ≤ 15 }
    requires all { IsGathered (asked_of script.now crew) clip (passes_of crew) (passes_of crew) all }

    // The journal is a legal history of a whole run, or of a cut one, and the frames are those that it closes.
    ensures legal { IsLegalHistory clip.size clip.land.levels result.journal }
    ensures whole { result.full ≡ false → IsSwarmRun (asked_of script.now crew) result.journal }
    ensures cut { result.full ≡ true → IsCutRun (asked_of script.now crew) result.journal }
    ensures long { result.full ≡ true → 1048575 ≤ length result.journal }
    ensures short { length result.journal ≤ 1048576 }
    ensures frames { AreFramesOf clip.land.terrain clip.size clip.land.levels result.journal result.frames.items }
{
    gathered_passes_are_runs();
    let Outcome { pass, frames, full } = all;
    let frames = sorted(frames);
    let _number = pass.number();
    match clip.close(pass) {
        Ok((_, journal)) => SwarmRun {
            journal,
            frames,
            full,
        },
        Err(_) => unreachable!(),
    }
}

/// Runs a swarm over the terrain that the filler's shape names: a mover, workers and renderers, each on a thread of its
/// own where threads can be had, and one after another where none can. `post` is told as each activity begins and ends:
/// the mover is task 0, the workers are the tasks from 1 on, and the renderers are the tasks after them.
///
/// An activity that meets a full journal stops after it has ended its frame or given back its job. The only refusal is
/// want of memory.
pub fn run<R: Threads + Wait + Sync, F: Filler + Sync, P: Post + Sync>(
    rt: &R,
    alloc: Global,
    filler: &F,
    script: &SwarmScript,
    workers: u8,
    renderers: u8,
    post: &P,
) -> Result<SwarmRun, NoMemory>
    // The script is of the terrain's levels, and asks for what a book can take.
    requires some { 1 ≤ workers }
    requires few { workers + renderers ≤ 15 }
    requires size { IsSize script.now.k }
    requires levels { script.now.levels ≡ (F.land filler.now).levels }
    requires moves { All IsMove script.now.moves.items }
    requires cells { renderers * script.now.begins * script.now.levels * 4 ^ script.now.k ≤ 2 ^ 24 }

    // The journal is a legal history: of a whole run, or of a run that was cut because the journal was full.
    ensures legal { IfOk result (λ run. IsLegalHistory script.now.k script.now.levels run.journal) }
    ensures whole { IfOk result (λ run.
        run.full ≡ false → IsSwarmRun (orders_of script.now workers renderers) run.journal) }
    ensures cut { IfOk result (λ run. run.full ≡ true → IsCutRun (orders_of script.now workers renderers) run.journal) }
    ensures long { IfOk result (λ run. run.full ≡ true → 1048575 ≤ length run.journal) }
    ensures short { IfOk result (λ run. length run.journal ≤ 1048576) }

    // By rising number, the frames are exactly those that the journal closes.
    ensures frames { IfOk result (λ run.
        AreFramesOf (F.land filler.now).terrain script.now.k script.now.levels run.journal run.frames.items) }
{
    let crew = Crew { workers, renderers };
    let (clip, first) = started(alloc, filler, script)?;
    let passes = all_passes(alloc, &clip, first, workers + renderers)?;
    let done = all_done(rt, alloc, &clip, filler, post, script, crew, passes)?;
    let all = gathered(rt, &clip, script, crew, done)?;
    Ok(ended(clip, script, crew, all))
}
