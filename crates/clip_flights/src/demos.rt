//! The demo: a flight of which one line tells.

ghost use Rattle.std.specs.Prelude.{◌≡◌, ◌≤◌, All, IfOk, IfSome, length, string_bytes};
ghost use Rattle.outer_shelf.specs.Counts.{Rose};
ghost use Rattle.clip_script.specs.Ranges.{AreSizes, IsFlown};
ghost use Rattle.run_actions.specs.Runs.{CallsWithin, OnHalt, WriteEnds};
ghost use Rattle.clip_flights.specs.Flights.{demo_line, flight_tally, frames_text};

use crate::flying::fly;
use crate::nobody::Nobody;
use clip_desk::Means;
use clip_rounds::Tally;
use clip_script::FlyScript;
use decode_workers::Filler;
use outer_shelf::Sink;
use run_actions::{Halt, write};
use std::alloc::{AllocError, Global};
use std::thread::Threads;

// The head of the line of a demo.
#[tactic(auto, unfolding(crate::specs::Flights::frames_text))]
fn frames_text(
    alloc: Global,
    seed: u64,
    frames: u64,
    vertices: u64,
    triangles: u64,
) -> Result<String, AllocError>
    ensures { IfOk result (λ text. string_bytes text ≡ frames_text seed frames vertices triangles) }
{
    format!(in alloc; "demo {seed} frames {frames} vertices {vertices} triangles {triangles}")
}

// The line of a demo.
#[tactic(auto, unfolding(crate::specs::Flights::demo_line))]
fn demo_line(alloc: Global, seed: u64, tally: Tally) -> Result<String, AllocError>
    ensures { IfOk result (λ line. string_bytes line ≡ demo_line seed tally) }
{
    let (frames, pieces, bytes) = (tally.frames, tally.pieces, tally.bytes);
    let text = frames_text(alloc, seed, frames, tally.vertices, tally.triangles)?;
    format!(in alloc; "{text} pieces {pieces} bytes {bytes}\n")
}

// Flies a script with two workers for nobody: only its numbers are kept.
fn count<R: Threads + Sync, F: Filler + Sync>(
    means: &Means<'_, R, F>,
    script: &FlyScript,
) -> Option<Tally>
    requires sizes { AreSizes script.now.k script.now.levels }
    requires lines { All IsFlown script.now.lines.items }
    requires few { length script.now.lines.items ≤ 1048577 }
    requires levels { script.now.levels ≡ (F.land means.now.filler.now).levels }
    ensures { IfSome result (λ tally. tally
        ≡ flight_tally (F.land means.now.filler.now).terrain script.now.k script.now.levels 2
        script.now.lines.items) }
{
    match fly(means, script, 2, &mut Nobody, &mut Nobody) {
        Ok(tally) => Some(tally),
        Err(_) => None,
    }
}

/// Flies a script with two workers, and writes one line with a seed and the flight's numbers. Nothing is put.
pub fn demo<R: Threads + Sync, F: Filler + Sync, K: Sink>(
    means: &Means<'_, R, F>,
    seed: u64,
    script: &FlyScript,
    out: &mut K,
) -> Result<(), Halt>
    requires sizes { AreSizes script.now.k script.now.levels }
    requires lines { All IsFlown script.now.lines.items }
    requires few { length script.now.lines.items ≤ 1048577 }
    requires levels { script.now.levels ≡ (F.land means.now.filler.now).levels }

    // The line is whole or, where memory was wanting or the sink failed, a front of it.
    ensures ends { WriteEnds (demo_line seed (flight_tally (F.land means.now.filler.now).terrain
        script.now.k script.now.levels 2 script.now.lines.items)) result
        (K.told out.old).written (K.told out.new).written }

    // There is at most one write, and a halt has its reason.
    ensures calls { CallsWithin 1 (K.told out.old).calls (K.told out.new).calls }
    ensures reason { OnHalt result ⊥ (Rose (K.told out.old).faults (K.told out.new).faults) }
    ensures faults_stay { (K.told out.old).faults ≤ (K.told out.new).faults }
{
    match count(means, script) {
        Some(tally) => match demo_line(means.alloc, seed, tally) {
            Ok(line) => write(out, line.as_bytes()),
            Err(_) => Err(Halt::NoMemory),
        },
        None => Err(Halt::NoMemory),
    }
}
