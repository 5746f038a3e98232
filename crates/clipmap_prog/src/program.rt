//! The program: the words of its command line, read or not, to its exit status.
ghost use Rattle.std.specs.Prelude.{◌≡◌, map, string_bytes};
ghost use Rattle.std.specs.Process.{exit_status};
ghost use Rattle.clipmap_prog.specs.Commands.{OfOutcome};
ghost use Rattle.clipmap_prog.specs.Program.{words_told};
ghost use Rattle.clipmap_prog.specs.Promise.{HasCauses, IsComplete, ShelfCallsWithin, SinkCallsWithin, Stands};
ghost use Rattle.clipmap_prog.specs.Swarm.{AnswersSwarm, HasSwarmCauses};

use crate::swarm_top::swarm;
use crate::top::clipmap;
use clipmap_words::is_swarm;
use outer_shelf::{FolderShelf, Shelf, Sink, StreamSink};
use std::alloc::Global;
use std::marker::Model;
use std::process::{ExitCode, Termination};
use std::rt::{Env, Files};
use std::sync::Wait;
use std::thread::Threads;
use std::{env, io};

/// That the program ended, with its exit status. It can't be dropped: `main` has to return it.
pub struct Ended {
    status: u8,
}

impl Model for Ended {
    ghost use Rattle.std.specs.Prelude.{ℕ};

    ghost Value = { ℕ };

    ghost view = { λ e. e.status };
}

impl Termination for Ended {
    fn report<R: Eprint>(self, _rt: &R) -> ExitCode
        ensures { exit_status result ≡ self }
    {
        let Ended { status } = self;
        ExitCode::from(status)
    }
}

/// Runs the words of a command line, and ends with the status of [`clipmap`](crate::clipmap).
///
/// Words that couldn't be read, as one that isn't UTF-8, are no command. Where there was no memory for them the
/// status is 5.
pub fn run_program<R: Threads + Sync, S: Shelf, K: Sink>(
    rt: &R,
    alloc: Global,
    words: io::Result<Vec<String>>,
    shelf: &mut S,
    out: &mut K,
) -> Ended
    ensures stands_where_told { OfOutcome (words_told words) (S.told shelf.old)
        (λ outcome. Stands S.leaves outcome result
        (S.told shelf.old) (S.told shelf.new) (K.told out.old) (K.told out.new)) }
    ensures causes { HasCauses (words_told words) result
        (S.told shelf.old) (S.told shelf.new) (K.told out.old) (K.told out.new) }
    ensures complete_where_told { OfOutcome (words_told words) (S.told shelf.old)
        (λ outcome. IsComplete outcome result
        (S.told shelf.old) (S.told shelf.new) (K.told out.old) (K.told out.new)) }
    ensures shelf_calls_where_told { OfOutcome (words_told words) (S.told shelf.old)
        (λ outcome. ShelfCallsWithin outcome (S.told shelf.old) (S.told shelf.new)) }
    ensures sink_calls_where_told { OfOutcome (words_told words) (S.told shelf.old)
        (λ outcome. SinkCallsWithin outcome (S.told shelf.old) (K.told out.old) (K.told out.new)) }
{
    let status = match words {
        Ok(words) => clipmap(rt, alloc, words.as_slice(), shelf, out),
        Err(error) if error.kind() == io::ErrorKind::OutOfMemory => 5,
        Err(_) => clipmap(rt, alloc, &[], shelf, out),
    };
    Ended { status }
}

/// Runs the words of a command line that are for [`swarm`](fn@crate::swarm), and ends with its status.
pub fn run_swarm_program<R: Threads + Wait + Sync, S: Shelf, K: Sink>(
    rt: &R,
    alloc: Global,
    words: &[String],
    shelf: &mut S,
    out: &mut K,
) -> Ended
    ensures stands_where_told { AnswersSwarm S.leaves (map string_bytes words.now) result
        (S.told shelf.old) (S.told shelf.new) (K.told out.old) (K.told out.new) }
    ensures causes { HasSwarmCauses (map string_bytes words.now) result
        (S.told shelf.old) (S.told shelf.new) (K.told out.old) (K.told out.new) }
{
    Ended {
        status: swarm(rt, alloc, words, shelf, out),
    }
}

// The words after the program's name.
fn command_words<R: Env + AllocGlobal>(rt: &R) -> io::Result<Vec<String>> {
    let mut words = Vec::new(rt.alloc());
    for word in env::args(rt)?.skip(1) {
        words.push(word)?;
    }
    Ok(words)
}

/// Runs the program over its command line, the working folder and standard output: words whose first is `swarm` by
/// [`run_swarm_program`], and all others by [`run_program`].
pub fn run_main<R: Env + Files + Print + Threads + Wait + Sync + AllocGlobal>(rt: &R) -> Ended {
    let mut shelf = FolderShelf::new(rt);
    let mut out = StreamSink::new(rt);
    match command_words(rt) {
        Ok(words) if is_swarm(&words) => {
            run_swarm_program(rt, rt.alloc(), &words, &mut shelf, &mut out)
        }
        words => run_program(rt, rt.alloc(), words, &mut shelf, &mut out),
    }
}
