//! Room for the text of a frame.

ghost use Rattle.std.specs.Prelude.{◌≡◌, [], IfOk};

use crate::text::depth_for;
use obj_frames::NoMemory;
use std::thread::Threads;

// How many bytes a line has, a little less than most.
const LINE: usize = 22;

/// Whether a text of so many lines is printed by more than one thread on this machine.
pub fn pays<R: Threads>(rt: &R, lines: usize) -> bool {
    depth_for(rt, lines) > 0
}

/// The text, emptied, with room for so many lines.
///
/// Most of what a large text costs is new memory, at the first touch of each page. So the room has been touched, and one
/// thread may make it while others make the mesh.
pub fn touched(text: Vec<u8>, lines: usize) -> Result<Vec<u8>, NoMemory>
    ensures { IfOk result (λ text. text.items ≡ []) }
{
    let mut text = text;
    text.clear();
    text.resize(lines.saturating_mul(LINE), 0)?;
    text.clear();
    Ok(text)
}
