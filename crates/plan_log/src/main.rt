//! Reads a play script from standard input, plays its events on the plain program of the plan, and writes one
//! line an event to standard output: the event's line, `: `, and the answer.
//!
//! It is a tool for comparing with other implementations. A script that can't be read or that asks for a view is
//! refused before anything is played, with status 1 and the line on standard error.
#![tactic(auto)]

ghost use Rattle.std.specs.Prelude.{◌≡◌, Err, IfErr, IfOk, IfSome, OnOk};
ghost use Rattle.std.specs.Io.KnownBytes.{Appends};
ghost use Rattle.plan_log.specs.Halts.{IsReadStop, IsWriteStop};
ghost use Rattle.plan_log.specs.Logs.{AppendsLog, EndsUnwritten, script_log};

mod events;
mod halt;
mod logs;
#[cfg(test)]
mod tests;

use crate::halt::Halt;
use crate::logs::script_log;
use std::alloc::Global;
use std::io;
use std::io::{BufWriter, Read, Write};
use std::process::ExitCode;

// Writes a text, and writes it out.
fn write_out<W: Write>(log: &mut W, text: &[u8]) -> Result<(), Halt>
    ensures written { OnOk result (Appends (W.contents log.old) (W.contents log.new) text.now) }
    ensures ended { IfErr result IsWriteStop }
{
    match log.write_all(text) {
        Ok(()) => {}
        Err(error) => return Err(Halt::of_write(&error)),
    }
    match log.flush() {
        Ok(()) => Ok(()),
        Err(error) => Err(Halt::of_write(&error)),
    }
}

// Plays a script and writes its log.
fn play_through<W: Write>(alloc: Global, script: &[u8], log: &mut W) -> Result<(), Halt>
    ensures log { OnOk result (AppendsLog (W.contents log.old) (W.contents log.new) (script_log script.now)) }
    ensures ended { IfErr result (EndsUnwritten (script_log script.now)) }
    ensures unwritten { IfErr result (λ halt. script_log script.now ≡ Err halt → log.new ≡ log.old) }
{
    let text = script_log(alloc, script)?;
    write_out(log, text.as_slice())
}

// All that an input has.
fn read_script<R: Read>(alloc: Global, input: &mut R) -> Result<Vec<u8>, Halt>
    ensures bytes { IfOk result (λ script. IfSome (R.remaining input.old) (λ bytes. script.items ≡ bytes)) }
    ensures ended { IfErr result IsReadStop }
{
    let mut script = Vec::new(alloc);
    match input.read_to_end(&mut script) {
        Ok(_) => Ok(script),
        Err(error) => Err(Halt::of_read(&error)),
    }
}

// Plays the script of standard input.
fn run<R: Input + Print + AllocGlobal>(rt: &R) -> Result<(), Halt> {
    let script = read_script(rt.alloc(), &mut rt.reader())?;
    let mut log = match BufWriter::new(rt.alloc(), io::writer(rt)) {
        Ok(log) => log,
        Err(error) => return Err(Halt::of_write(&error)),
    };
    play_through(rt.alloc(), script.as_slice(), &mut log)
}

// Ends with status 0 where the whole script was played, 1 where it is refused, 3 where a read of standard input
// failed, 4 where a write of standard output failed, and 5 where there was no memory.
fn main(rt: HostRuntime) -> ExitCode {
    match run(&rt) {
        Ok(()) => ExitCode::SUCCESS,
        Err(halt) => {
            match halt {
                Halt::Line(line) => {
                    let _ = eprintln!(rt; "line {line}");
                }
                Halt::TooMany(lines) => {
                    let _ = eprintln!(rt; "lines {lines}");
                }
                Halt::ReadFailed | Halt::WriteFailed | Halt::NoMemory => {}
            }
            ExitCode::from(halt.status())
        }
    }
}
