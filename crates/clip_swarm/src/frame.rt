//! Frames of a run.

ghost use Rattle.std.specs.Prelude.{◌≡◌};

use std::marker::Model;

/// A frame that a run closed: its number, its text as a Wavefront OBJ file, and how many vertices and triangles the
/// text has. A contract sees these four.
#[derive(Drop)]
pub struct SwarmFrame {
    pub(crate) number: u64,
    pub(crate) bytes: Vec<u8>,
    pub(crate) vertices: u32,
    pub(crate) triangles: u32,
}

impl Model for SwarmFrame {
    ghost use Rattle.swarm_passes.specs.Frames.{FrameView};

    ghost Value = { FrameView };

    ghost view = { λ s. record {
      number = s.number;
      bytes = s.bytes.items;
      vertices = s.vertices;
      triangles = s.triangles;
    } };
}

impl SwarmFrame {
    /// The frame's number: frames are numbered from 0, as they begin.
    pub fn number(&self) -> u64
        ensures { result ≡ self.now.number }
    {
        self.number
    }

    /// The text, in bytes.
    pub fn bytes(&self) -> &[u8]
        ensures { result.now ≡ self.now.bytes }
    {
        &self.bytes
    }

    /// How many vertices the text has.
    pub fn vertices(&self) -> u32
        ensures { result ≡ self.now.vertices }
    {
        self.vertices
    }

    /// How many triangles it has.
    pub fn triangles(&self) -> u32
        ensures { result ≡ self.now.triangles }
    {
        self.triangles
    }
}
