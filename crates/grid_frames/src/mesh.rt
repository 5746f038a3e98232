//! The mesh of a frame over a grid.

ghost use Rattle.std.specs.Prelude.{◌≡◌, IfOk};
ghost use Rattle.plan_model.specs.Limits.{IsSize};
ghost use Rattle.mesh_model.specs.Mesh.{mesh};

use crate::grid_heights::GridHeights;
use active_region::Actives;
use height_pyramid::Grid;
use obj_frames::{Mesh, NoMemory};
use ring_mesh::rings;
use std::alloc::Global;
use stitches::close;

/// The mesh of a frame's active regions over a terrain: blended heights, rings and stitches.
///
/// `k` sets the width of the blend. The only refusal is want of memory.
pub fn grid_mesh(alloc: Global, k: u8, actives: &Actives, grid: &Grid) -> Result<Mesh, NoMemory>
    requires k { IsSize k }
    ensures value { IfOk result (λ made. made ≡ mesh grid.now k actives.now) }
{
    let heights = GridHeights {
        grid,
        actives: *actives,
    };
    let open = rings(alloc, k, actives, &heights)?;
    close(open, actives)
}
