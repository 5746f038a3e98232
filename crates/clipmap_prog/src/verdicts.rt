//! The lines of the verdicts on a frame's text.
ghost use Rattle.std.specs.Prelude.{◌≡◌, IfOk, string_bytes};
ghost use Rattle.clipmap_prog.specs.Verdicts.{verdict_line, watertight_line};

use mesh_check::Verdict;
use std::alloc::{AllocError, Global};

// The line of a watertight mesh with so many triangles.
pub(crate) fn watertight_line(alloc: Global, triangles: u32) -> Result<String, AllocError>
    ensures line { IfOk result (λ line. string_bytes line ≡ watertight_line triangles) }
{
    format!(in alloc; "watertight {triangles}\n")
}

// The line of a verdict. Want of memory is none of a text, and has no line.
pub(crate) fn verdict_line(alloc: Global, verdict: Verdict) -> Result<String, AllocError>
    ensures line { IfOk result (λ line. string_bytes line ≡ verdict_line verdict) }
{
    match verdict {
        Verdict::Watertight { triangles } => watertight_line(alloc, triangles),
        Verdict::Crack { a, b, count } => {
            format!(in alloc; "fault: crack {a} {b} count {count}\n")
        }
        Verdict::Tilted { face } => format!(in alloc; "fault: tilted face {face}\n"),
        Verdict::Bad { line } => format!(in alloc; "fault: bad line {line}\n"),
        Verdict::NoMemory => Ok(String::new(alloc)),
    }
}
