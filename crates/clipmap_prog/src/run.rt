//! The run of a command: one function a command does it.
ghost use Rattle.std.specs.Prelude.{◌≡◌, ◌⊎◌, IfOk};
ghost use Rattle.clipmap_words.specs.Commands.{IsInRange, view_of};
ghost use Rattle.clipmap_prog.specs.Commands.{command_outcome, store_inputs};
ghost use Rattle.clipmap_prog.specs.Promise.{Runs};
ghost use Rattle.run_actions.specs.Runs.{HadReason};
ghost use Rattle.clipmap_prog.specs.Stores.{ByVerdict};

use crate::check::run_check;
use crate::demo::run_demo;
use crate::fly::run_fly;
use crate::frame::run_frame;
use crate::info::run_info;
use crate::pack::{run_pack, run_pack_by};
use crate::play::run_play;
use clipmap_words::Command;
use outer_shelf::{Shelf, Sink};
use run_actions::Halt;
use std::alloc::Global;
use std::thread::Threads;

// Runs a command. `Ok` is the status: 0 where it is done, and 2 where it is refused and the line of its
// fault is written.
pub(crate) fn run<R: Threads + Sync, S: Shelf, K: Sink>(
    rt: &R,
    alloc: Global,
    command: &Command<'_>,
    shelf: &mut S,
    out: &mut K,
) -> Result<u8, Halt>
    requires in_range { IsInRange (view_of command.now) }
    ensures runs { ByVerdict (store_inputs (view_of command.now)) (S.told shelf.old).files
        (λ verdict. Runs S.leaves (command_outcome verdict (view_of command.now)) result
        (S.told shelf.old) (S.told shelf.new) (K.told out.old) (K.told out.new)) }
    ensures status { IfOk result (λ status. (status ≡ 0) ⊎ (status ≡ 2)) }
    ensures reason { HadReason result (S.told shelf.old) (S.told shelf.new) (K.told out.old) (K.told out.new) }
{
    match command {
        Command::Check(check) => run_check(alloc, check, shelf, out),
        Command::Demo(demo) => run_demo(rt, alloc, demo, shelf, out),
        Command::Fly(fly) => run_fly(rt, alloc, fly, shelf, out),
        Command::Frame(frame) => run_frame(rt, alloc, frame, shelf, out),
        Command::Info(info) => run_info(rt, alloc, info, shelf, out),
        Command::Pack(pack) => run_pack(alloc, pack, shelf, out),
        Command::PackBy(pack) => run_pack_by(rt, alloc, pack, shelf, out),
        Command::Play(play) => run_play(rt, alloc, play, shelf, out),
    }
}
