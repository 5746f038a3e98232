//! The lines of a frame's text.

ghost use Rattle.std.specs.Prelude.{◌≡◌, Some};
ghost use Rattle.mesh_model.specs.Text.{frame_line, viewer_line, region_text, level_line, sign_text, height_text, vertex_line, triangle_line};
ghost use Rattle.mesh_model.specs.Seen.{kept_line};

use clip_regions::Region;
use mesh_model::Vertex;
use std::fmt;

// The line of the frame's number.
#[derive(Drop)]
pub(crate) struct FrameLine {
    pub(crate) number: u64,
}

impl fmt::Display for FrameLine {
    ghost output = { λ line. Some (frame_line line.number) };

    #[tactic(auto, unfolding(mesh_model::specs::Text::frame_line))]
    fn fmt<W: fmt::Write>(&self, f: &mut fmt::Formatter<W>) -> fmt::Result {
        let number = self.number;
        writeln!(f, "# clipmap frame {number}")
    }
}

// The line of the viewer.
#[derive(Drop)]
pub(crate) struct ViewerLine {
    pub(crate) x: i32,
    pub(crate) y: i32,
}

impl fmt::Display for ViewerLine {
    ghost output = { λ line. Some (viewer_line line.x line.y) };

    fn fmt<W: fmt::Write>(&self, f: &mut fmt::Formatter<W>) -> fmt::Result {
        let ViewerLine { x, y } = *self;
        writeln!(f, "# viewer {x} {y}")
    }
}

// What a level's line says of its active region.
#[derive(Drop)]
struct RegionText(Region);

impl fmt::Display for RegionText {
    ghost output = { λ text. Some (region_text text.0) };

    fn fmt<W: fmt::Write>(&self, f: &mut fmt::Formatter<W>) -> fmt::Result {
        if self.0.is_empty() {
            return write!(f, " empty");
        }
        let Region { x0, y0, x1, y1 } = self.0;
        write!(f, " active {x0} {y0} {x1} {y1}")
    }
}

// The line of a level, counted from the finest, and its active region.
#[derive(Drop)]
pub(crate) struct LevelLine {
    pub(crate) level: usize,
    pub(crate) active: Region,
}

impl fmt::Display for LevelLine {
    ghost output = { λ line. Some (level_line line.level line.active) };

    #[tactic(auto, unfolding(mesh_model::specs::Text::level_line))]
    fn fmt<W: fmt::Write>(&self, f: &mut fmt::Formatter<W>) -> fmt::Result {
        let level = self.level;
        let active = RegionText(self.active);
        writeln!(f, "# level {level}{active}")
    }
}

// The line that says how many of the parts are kept.
#[derive(Drop)]
pub(crate) struct KeptLine {
    pub(crate) kept: usize,
    pub(crate) whole: usize,
}

impl fmt::Display for KeptLine {
    ghost output = { λ line. Some (kept_line line.kept line.whole) };

    #[tactic(auto, unfolding(mesh_model::specs::Seen::kept_line))]
    fn fmt<W: fmt::Write>(&self, f: &mut fmt::Formatter<W>) -> fmt::Result {
        let KeptLine { kept, whole } = *self;
        writeln!(f, "# kept {kept} of {whole}")
    }
}

// `-` before a negative number.
fn sign_of(number: i32) -> &'static str
    ensures { result.now ≡ sign_text number }
{
    if number < 0 { "-" } else { "" }
}

// A height in metres, given in thirty-seconds of a metre: each is 3125 hundred-thousandths.
#[derive(Drop)]
struct HeightText(i32);

impl fmt::Display for HeightText {
    ghost output = { λ text. Some (height_text text.0) };

    fn fmt<W: fmt::Write>(&self, f: &mut fmt::Formatter<W>) -> fmt::Result {
        let sign = sign_of(self.0);
        let size = self.0.unsigned_abs();
        let metres = size / 32;
        let hundred_thousandths = size % 32 * 3125;
        write!(f, "{sign}{metres}.{hundred_thousandths:05}")
    }
}

// The line of a vertex.
#[derive(Drop)]
pub(crate) struct VertexLine(pub(crate) Vertex);

impl fmt::Display for VertexLine {
    ghost output = { λ line. Some (vertex_line line.0) };

    fn fmt<W: fmt::Write>(&self, f: &mut fmt::Formatter<W>) -> fmt::Result {
        let Vertex { x, z, height } = self.0;
        let height = HeightText(height);
        writeln!(f, "v {x} {height} {z}")
    }
}

// The line of a triangle, whose places are counted from 0 and printed from 1.
#[derive(Drop)]
pub(crate) struct TriangleLine(pub(crate) [u32; 3]);

impl fmt::Display for TriangleLine {
    ghost output = { λ line. Some (triangle_line line.0) };

    #[tactic(auto, unfolding(mesh_model::specs::Text::triangle_line))]
    fn fmt<W: fmt::Write>(&self, f: &mut fmt::Formatter<W>) -> fmt::Result {
        let a = u64::from(self.0[0]) + 1;
        let b = u64::from(self.0[1]) + 1;
        let c = u64::from(self.0[2]) + 1;
        writeln!(f, "f {a} {b} {c}")
    }
}
