//! The parts of a mesh.

ghost use Rattle.std.specs.Prelude.{◌≡◌, ◌++◌, ◌∷◌, [], OnOk};

use mesh_model::PartKind;
use std::alloc::AllocError;
use std::marker::Model;

/// A part of a mesh: its level, which part of the level it is, and its triangles, each as the places of
/// its three vertices.
#[derive(Drop)]
pub struct PlainPart {
    pub(crate) level: u8,
    pub(crate) kind: PartKind,
    pub(crate) triangles: Vec<[u32; 3]>,
}

impl Model for PlainPart {
    ghost use Rattle.mesh_model.specs.Parts.{PartTriangles};

    ghost Value = { PartTriangles };

    ghost view = { λ a. record { level = a.level; kind = a.kind; triangles = a.triangles.items } };
}

impl PlainPart {
    /// The level, from 0 at the finest.
    pub fn level(&self) -> u8
        ensures value { result ≡ self.now.level }
    {
        self.level
    }

    /// Which part of the level it is.
    pub fn kind(&self) -> PartKind
        ensures value { result ≡ self.now.kind }
    {
        self.kind
    }

    /// The triangles, each as the places of its three vertices, counted from 0.
    pub fn triangles(&self) -> &[[u32; 3]]
        ensures value { result.now ≡ self.now.triangles }
    {
        &self.triangles
    }
}

// Adds a part.
pub(crate) fn push_part(parts: &mut Vec<PlainPart>, part: PlainPart) -> Result<(), AllocError>
    ensures { OnOk result (parts.new.items ≡ parts.old.items ++ part ∷ []) }
{
    parts.push(part)?;
    Ok(())
}
