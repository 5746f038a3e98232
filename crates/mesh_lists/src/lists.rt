//! The lists of a text.

ghost use Rattle.std.specs.Prelude.{◌≡◌, ◌≤◌, ◌^◌, MatchResult, Ok, length};
ghost use Rattle.mesh_lists.specs.Lists.{AreLists, IsStop, lists_of_text};

use crate::body::read_body;
use crate::head::read_head;
use clip_regions::Region;
use mesh_model::Vertex;
use std::alloc::Global;
use std::marker::Model;

/// Why a text has no lists.
#[derive(Clone, Copy, PartialEq, Eq, Debug, Drop)]
pub enum ListsFault {
    /// A line breaks a rule, or the text ends too early.
    BadLine {
        /// The first such line, counted from 1.
        line: u32,
    },
    /// There is no memory for the lists.
    NoMemory,
}

/// The vertices and triangles of a text, and what it covers.
#[derive(Drop)]
pub struct TextLists {
    pub(crate) vertices: Vec<Vertex>,
    pub(crate) triangles: Vec<[u32; 3]>,
    pub(crate) border: Region,
}

impl Model for TextLists {
    ghost use Rattle.mesh_lists.specs.Lists.{AreLists, Lists};

    ghost Value = { Lists };

    ghost view = { λ t. record { vertices = t.vertices.items; triangles = t.triangles.items; border = t.border } };

    ghost invariant = { λ t. AreLists
        (record { vertices = t.vertices.items; triangles = t.triangles.items; border = t.border }) };
}

impl TextLists {
    /// The vertices, in their order.
    pub fn vertices(&self) -> &[Vertex]
        ensures value { result.now ≡ self.now.vertices }
        ensures lists { AreLists self.now }
    {
        &self.vertices
    }

    /// The triangles, each as the places of its three vertices counted from 0.
    pub fn triangles(&self) -> &[[u32; 3]]
        ensures value { result.now ≡ self.now.triangles }
        ensures lists { AreLists self.now }
    {
        &self.triangles
    }

    /// The active region of the last level, by positions in samples.
    pub fn border(&self) -> Region
        ensures value { result ≡ self.now.border }
    {
        self.border
    }
}

/// The lists of a text of at most 2^28 bytes, or its first bad line.
pub fn text_lists(alloc: Global, bytes: &[u8]) -> Result<TextLists, ListsFault>
    requires small { length bytes.now ≤ 2 ^ 28 }
    ensures lists { MatchResult result (λ lists. lists_of_text bytes.now ≡ Ok lists)
        (IsStop (lists_of_text bytes.now)) }
{
    let head = read_head(alloc, bytes)?;
    read_body(alloc, head)
}
