//! Why a play ends before its script does.

ghost use Rattle.std.specs.Prelude.{◌≡◌, ◌↔◌, IsTrue};
ghost use Rattle.plan_log.specs.Halts.{halt_of, status_of, IsReadStop, IsWantOfMemory, IsWriteStop};
ghost use Rattle.plan_log.specs.declared.halt.Halt.TheVariants.{NoMemory as HaltNoMemory};

use clip_script::{NoMemory, ScriptFault};
use std::alloc::AllocError;
use std::io;
use std::io::ErrorKind;

// Why a play ends before its script does.
#[derive(Clone, Copy, PartialEq, Eq, Debug)]
pub(crate) enum Halt {
    // The line of this number, counted from 1, can't be played: it is a bad line or asks for a view.
    Line(u64),
    // The script has this number of lines, which is too many.
    TooMany(u64),
    // A read of the script failed.
    ReadFailed,
    // A write of the log failed.
    WriteFailed,
    // There was no memory.
    NoMemory,
}

// Whether an allocation was refused. What a system call answers for want of memory is a failure of its own.
fn is_want_of_memory(error: &io::Error) -> bool
    ensures value { IsTrue result ↔ IsWantOfMemory error.now }
{
    error.kind() == ErrorKind::OutOfMemory && error.raw_os_error().is_none()
}

impl Halt {
    // The cause of a fault of a script.
    pub(crate) fn of_fault(fault: ScriptFault) -> Halt
        ensures value { result ≡ halt_of fault }
    {
        match fault {
            ScriptFault::TooMany { lines } => Halt::TooMany(lines),
            ScriptFault::BadLine { line } => Halt::Line(line),
            ScriptFault::NoMemory => Halt::NoMemory,
        }
    }

    // The cause of an error that a read met.
    pub(crate) fn of_read(error: &io::Error) -> Halt
        ensures cause { IsReadStop result }
        ensures memory { (result ≡ Halt.NoMemory) ↔ IsWantOfMemory error.now }
    {
        if is_want_of_memory(error) {
            Halt::NoMemory
        } else {
            Halt::ReadFailed
        }
    }

    // The cause of an error that a write met.
    pub(crate) fn of_write(error: &io::Error) -> Halt
        ensures cause { IsWriteStop result }
        ensures memory { (result ≡ Halt.NoMemory) ↔ IsWantOfMemory error.now }
    {
        if is_want_of_memory(error) {
            Halt::NoMemory
        } else {
            Halt::WriteFailed
        }
    }

    // The program's status.
    pub(crate) fn status(self) -> u8
        ensures value { result ≡ status_of self }
    {
        match self {
            Halt::Line(_) | Halt::TooMany(_) => 1,
            Halt::ReadFailed => 3,
            Halt::WriteFailed => 4,
            Halt::NoMemory => 5,
        }
    }
}

impl From<AllocError> for Halt {
    ghost from_gives = { λ _ halt. halt ≡ HaltNoMemory };

    fn from(_error: AllocError) -> Halt {
        Halt::NoMemory
    }
}

impl From<NoMemory> for Halt {
    ghost from_gives = { λ _ halt. halt ≡ HaltNoMemory };

    fn from(_error: NoMemory) -> Halt {
        Halt::NoMemory
    }
}
