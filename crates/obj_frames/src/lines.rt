//! The lines of a frame's text, each appended to one growing buffer.

ghost use Rattle.std.specs.Prelude.{◌≡◌, ◌++◌, OnOk, decimal};
ghost use Rattle.std.specs.Fmt.{signed_decimal};
ghost use Rattle.mesh_model.specs.Text.{frame_line, viewer_line, level_line, region_text, vertex_line, triangle_line};
ghost use Rattle.mesh_model.specs.Seen.{kept_line};

use crate::line::{ROOM, write_triangle, write_vertex};
use crate::memory::NoMemory;
use clip_regions::Region;
use itoa::Buffer;
use mesh_model::Vertex;

// Appends bytes.
fn append(text: &mut Vec<u8>, bytes: &[u8]) -> Result<(), NoMemory>
    ensures { OnOk result (text.new.items ≡ text.old.items ++ bytes.now) }
{
    text.extend_from_slice(bytes)?;
    Ok(())
}

// Appends a number.
fn append_number(text: &mut Vec<u8>, digits: &mut Buffer, number: u64) -> Result<(), NoMemory>
    ensures { OnOk result (text.new.items ≡ text.old.items ++ decimal number) }
{
    append(text, digits.format(number).as_bytes())
}

// Appends a number, with its sign where it is negative.
fn append_signed(text: &mut Vec<u8>, digits: &mut Buffer, number: i32) -> Result<(), NoMemory>
    ensures { OnOk result (text.new.items ≡ text.old.items ++ signed_decimal number) }
{
    append(text, digits.format(number).as_bytes())
}

// Appends the line of a vertex, written in an array that is used again.
pub(crate) fn append_vertex(
    text: &mut Vec<u8>,
    line: &mut [u8; ROOM],
    vertex: &Vertex,
) -> Result<(), NoMemory>
    ensures { OnOk result (text.new.items ≡ text.old.items ++ vertex_line vertex.now) }
{
    let start = write_vertex(line, vertex);
    append(text, &line[start..])
}

// Appends the line of a triangle, written in an array that is used again.
pub(crate) fn append_triangle(
    text: &mut Vec<u8>,
    line: &mut [u8; ROOM],
    triangle: &[u32; 3],
) -> Result<(), NoMemory>
    ensures { OnOk result (text.new.items ≡ text.old.items ++ triangle_line triangle.now) }
{
    let start = write_triangle(line, triangle);
    append(text, &line[start..])
}

// Appends the line of the frame's number.
pub(crate) fn append_frame(
    text: &mut Vec<u8>,
    digits: &mut Buffer,
    number: u64,
) -> Result<(), NoMemory>
    ensures { OnOk result (text.new.items ≡ text.old.items ++ frame_line number) }
{
    append(text, b"# clipmap frame ")?;
    append_number(text, digits, number)?;
    append(text, b"\n")
}

// Appends the line of the viewer.
pub(crate) fn append_viewer(
    text: &mut Vec<u8>,
    digits: &mut Buffer,
    x: i32,
    y: i32,
) -> Result<(), NoMemory>
    ensures { OnOk result (text.new.items ≡ text.old.items ++ viewer_line x y) }
{
    append(text, b"# viewer ")?;
    append_signed(text, digits, x)?;
    append(text, b" ")?;
    append_signed(text, digits, y)?;
    append(text, b"\n")
}

// Appends what a level's line says of its active region.
fn append_region(text: &mut Vec<u8>, digits: &mut Buffer, active: &Region) -> Result<(), NoMemory>
    ensures { OnOk result (text.new.items ≡ text.old.items ++ region_text active.now) }
{
    if active.is_empty() {
        return append(text, b" empty");
    }
    append(text, b" active ")?;
    append_signed(text, digits, active.x0)?;
    append(text, b" ")?;
    append_signed(text, digits, active.y0)?;
    append(text, b" ")?;
    append_signed(text, digits, active.x1)?;
    append(text, b" ")?;
    append_signed(text, digits, active.y1)
}

// Appends the line of a level.
pub(crate) fn append_level(
    text: &mut Vec<u8>,
    digits: &mut Buffer,
    level: u8,
    active: &Region,
) -> Result<(), NoMemory>
    ensures { OnOk result (text.new.items ≡ text.old.items ++ level_line level active.now) }
{
    append(text, b"# level ")?;
    append_number(text, digits, u64::from(level))?;
    append_region(text, digits, active)?;
    append(text, b"\n")
}

// Appends the line that says how many of the parts are kept.
pub(crate) fn append_kept(
    text: &mut Vec<u8>,
    digits: &mut Buffer,
    kept: u64,
    whole: u64,
) -> Result<(), NoMemory>
    ensures { OnOk result (text.new.items ≡ text.old.items ++ kept_line kept whole) }
{
    append(text, b"# kept ")?;
    append_number(text, digits, kept)?;
    append(text, b" of ")?;
    append_number(text, digits, whole)?;
    append(text, b"\n")
}
