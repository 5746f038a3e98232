//! The files of a swarm's frames.

ghost use Rattle.std.specs.Prelude.{◌≡◌, ◌∷◌, [], IfOk, map, string_bytes};
ghost use Rattle.swarm_passes.specs.Frames.{FrameView};
ghost use Rattle.clip_desk.specs.Frames.{frame_name};
ghost use Rattle.run_actions.specs.Actions.{put_count};
ghost use Rattle.swarm_runs.specs.Products.{frame_put, frame_puts};
ghost use Rattle.swarm_runs.specs.Puts.{HasPut};

use clip_swarm::SwarmFrame;
use outer_shelf::Shelf;
use run_actions::{Halt, put};
use std::alloc::{AllocError, Global};

// The name of a frame's file.
#[tactic(auto, unfolding(clip_desk::specs::Frames::frame_name))]
fn frame_name(alloc: Global, name: &str, number: u64) -> Result<String, AllocError>
    ensures name { IfOk result (λ file. string_bytes file ≡ frame_name name.now number) }
{
    format!(in alloc; "{name}-{number}.obj")
}

// Puts a frame under its number.
fn put_frame<S: Shelf>(
    alloc: Global,
    shelf: &mut S,
    name: &str,
    frame: &SwarmFrame,
) -> Result<(), Halt>
    ensures { HasPut S.leaves (frame_put name.now frame.now ∷ []) result (S.told shelf.old) (S.told shelf.new) }
{
    match frame_name(alloc, name, frame.number()) {
        Ok(file) => put(shelf, file.as_str(), frame.bytes()),
        Err(_) => Err(Halt::NoMemory),
    }
}

// Puts frames under their numbers, one after another.
pub(crate) fn put_frames<S: Shelf>(
    alloc: Global,
    shelf: &mut S,
    name: &str,
    frames: &[SwarmFrame],
) -> Result<(), Halt>
    ensures { HasPut S.leaves (frame_puts name.now frames.now) result (S.told shelf.old) (S.told shelf.new) }
{
    for frame in frames {
        put_frame(alloc, shelf, name, frame)?;
    }
    Ok(())
}
