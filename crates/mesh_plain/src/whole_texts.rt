//! The text of a whole mesh.

ghost use Rattle.std.specs.Prelude.{◌≡◌, ◌^◌, ◌<◌, ◌≤◌, IfOk, length};
ghost use Rattle.plan_model.specs.Limits.{IsSize};
ghost use Rattle.mesh_model.specs.Mesh.{mesh};
ghost use Rattle.mesh_model.specs.Text.{frame_text};
ghost use Rattle.mesh_model.specs.Seen.{seen_text};
ghost use Rattle.mesh_model.specs.Vertices.{listed_vertices};
ghost use Rattle.mesh_plain.specs.Frames.{AreDrawn};

use crate::meshes::mesh;
use clip_regions::Region;
use height_pyramid::Grid;
use mesh_model::HalfSpace;
use mesh_plain_texts::{Head, frame_text, seen_text};
use obj_frames::NoMemory;
use std::alloc::Global;

/// The text of the mesh of a terrain, under the conditions of [`mesh`].
#[tactic(auto, unfolding(mesh_model::specs::Text::frame_text))]
pub fn whole_text(
    alloc: Global,
    head: &Head,
    terrain: &Grid,
    k: u8,
    actives: &[Region],
) -> Result<Vec<u8>, NoMemory>
    requires size { IsSize k }
    requires levels { length actives.now ≤ 12 }
    requires drawn { AreDrawn 0 actives.now }
    requires few_vertices { length (listed_vertices actives.now) < 2 ^ 31 }
    requires few_triangles { length (mesh terrain.now k actives.now).triangles < 2 ^ 31 }
    ensures value { IfOk result (λ text. text.items ≡
        frame_text head.now.number head.now.x head.now.y actives.now
        (mesh terrain.now k actives.now)) }
{
    let lists = mesh(alloc, terrain, k, actives)?;
    frame_text(alloc, head, actives, lists.vertices(), lists.triangles())
}

/// The text of those parts of the mesh of a terrain that a view keeps, under the conditions of [`mesh`].
pub fn kept_text(
    alloc: Global,
    head: &Head,
    terrain: &Grid,
    k: u8,
    actives: &[Region],
    view: &[HalfSpace],
) -> Result<Vec<u8>, NoMemory>
    requires size { IsSize k }
    requires levels { length actives.now ≤ 12 }
    requires drawn { AreDrawn 0 actives.now }
    requires few_vertices { length (listed_vertices actives.now) < 2 ^ 31 }
    requires few_triangles { length (mesh terrain.now k actives.now).triangles < 2 ^ 31 }
    ensures value { IfOk result (λ text. text.items ≡
        seen_text head.now.number head.now.x head.now.y actives.now
        (mesh terrain.now k actives.now) view.now) }
{
    let lists = mesh(alloc, terrain, k, actives)?;
    seen_text(
        alloc,
        head,
        actives,
        lists.vertices(),
        lists.triangles(),
        lists.parts(),
        view,
    )
}
