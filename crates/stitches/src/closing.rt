//! The mesh with its stitches.

ghost use Rattle.std.specs.Prelude.{IfOk};
ghost use Rattle.stitches.specs.Closing.{IsRingMesh, IsClosed};

use crate::borders::add_stitches;
use crate::counts::stitch_count;
use active_region::Actives;
use mesh_laws::{meshes_are_small, ring_stitches_are_stitch_parts};
use mesh_model::{nested_names, parts_of_mesh};
use obj_frames::{Mesh, NoMemory};
use ring_mesh::{Faces, parts_add_up};

/// The mesh of a frame with its stitches, of its vertices and square parts.
///
/// The mesh is that of a terrain, of a size of windows and of these active regions, but for its stitches.
/// They are added in the order of the levels from the finest on, of each level in the order of its
/// northern, eastern, southern and western side. The mesh is gone where there is no memory.
pub fn close(mesh: Mesh, actives: &Actives) -> Result<Mesh, NoMemory>
    requires rings { IsRingMesh actives.now mesh }
    ensures closed { IfOk result (λ closed. IsClosed actives.now mesh closed) }
{
    meshes_are_small();
    ring_stitches_are_stitch_parts();
    nested_names();
    parts_of_mesh();
    parts_add_up();
    let (vertices, mut triangles, mut parts) = mesh.apart();
    triangles.reserve(stitch_count(actives))?;
    parts.reserve(4 * usize::from(actives.levels()))?;
    let mut faces = Faces { triangles, parts };
    add_stitches(&mut faces, &vertices, actives)?;
    let Faces { triangles, parts } = faces;
    Ok(Mesh::new(vertices, triangles, parts))
}
