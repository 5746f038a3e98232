//! The faces of one group of levels, and those of the next behind them.

ghost use Rattle.std.specs.Prelude.{◌≡◌, ℕ, ◌+◌, ◌<◌, ◌≤◌, ◌^◌, ◌++◌, All, map, length, OnOk};
ghost use Rattle.ring_mesh.specs.Added.{AreFaces, parts_left, triangles_of, moved_on};

use crate::faces::Faces;
use active_region::Actives;
use obj_frames::{Part, Vertex};
use std::alloc::AllocError;

// Adds parts behind others, their triangles counted from so many more.
#[tactic(auto, unfolding(crate::specs::Added::moved_on))]
fn append_parts(parts: &mut Vec<Part>, behind: &[Part], more: u32) -> Result<(), AllocError>
    requires { All (λ part. part.first + more < 2 ^ 32) behind.now }
    ensures { OnOk result (parts.new.items ≡ parts.old.items ++ map (moved_on more) behind.now) }
{
    for part in behind {
        parts.push(Part {
            first: part.first + more,
            ..*part
        })?;
    }
    Ok(())
}

// Adds the faces of the levels from `middle` to the last before `to` behind those of the levels from `from` to the last
// before `middle`.
pub(crate) fn append_faces(
    faces: &mut Faces,
    behind: Faces,
    vertices: &[Vertex],
    actives: &Actives,
    from: u8,
    middle: u8,
    to: u8,
) -> Result<(), AllocError>
    requires few { length (triangles_of (parts_left actives.now 0)) < 2 ^ 31 }
    requires order { from ≤ middle }
    requires levels { middle ≤ length actives.now }
    requires front { AreFaces vertices.now actives.now from middle faces.old.triangles.items faces.old.parts.items }
    requires back { AreFaces vertices.now actives.now middle to behind.triangles.items behind.parts.items }
    ensures { OnOk result
        (AreFaces vertices.now actives.now from to faces.new.triangles.items faces.new.parts.items) }
{
    let Faces {
        mut triangles,
        parts,
    } = behind;
    append_parts(
        &mut faces.parts,
        parts.as_slice(),
        faces.triangles.len() as u32,
    )?;
    faces.triangles.append(&mut triangles)?;
    Ok(())
}
