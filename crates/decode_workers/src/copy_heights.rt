//! The mesh of a frame from copies of its heights.

ghost use Rattle.std.specs.Prelude.{◌≡◌, ◌<◌, length, IsTrue, IfOk};
ghost use Rattle.clip_regions.specs.Regions.{contains};
ghost use Rattle.terrain_model.specs.Terrain.{Terrain, level_height};
ghost use Rattle.mesh_model.specs.Height.{active_at};
ghost use Rattle.mesh_model.specs.Mesh.{mesh};
ghost use Rattle.active_region.specs.Active.{AreActive};
ghost use Rattle.decode_workers.specs.Copies.{no_terrain, AreCopies, AreCopiesOf, IsMeshOfCopies};

use crate::copies::LevelCopies;
use obj_frames::{Mesh, NoMemory};
use ring_mesh::{Heights, rings};
use std::alloc::Global;
use std::marker::{Brand, PhantomData};
use stitches::close;
use torus_grid::cells_stand_in_rows;

// What names a terrain to proofs alone.
trait Named {
    ghost terrain: { Terrain };
}

impl Named for Brand {
    ghost terrain = { no_terrain };
}

// Copies of the heights of the terrain that `N` names.
#[derive(Drop)]
struct CopyHeights<'a, N: Named> {
    copies: &'a LevelCopies,
    name: PhantomData<N>,
    ghost right: { AreCopiesOf N.terrain copies.now },
}

impl<N: Named> Heights for CopyHeights<'_, N> {
    ghost terrain = { λ h. N.terrain };

    ghost regions = { λ h. h.copies.now.actives };

    fn height(&self, level: u8, i: i32, j: i32) -> i16
        requires active { AreActive self.now.copies.now.actives }
        requires level { level < length self.now.copies.now.actives }
        requires cell { IsTrue (contains (active_at self.now.copies.now.actives level) i j) }
        ensures value { result ≡ level_height N.terrain level i j }
    {
        cells_stand_in_rows();
        self.copies.copied(level, i, j)
    }
}

// The mesh of copies of the heights of the terrain that `N` names.
fn draw_named<N: Named>(alloc: Global, copies: &LevelCopies) -> Result<Mesh, NoMemory>
    requires copies { AreCopiesOf N.terrain copies.now }
    ensures mesh { IfOk result (λ made. made ≡ mesh N.terrain copies.now.k copies.now.actives) }
{
    let heights = CopyHeights::<'_, N> {
        copies,
        name: PhantomData,
    };
    let actives = copies.actives();
    let open = rings(alloc, copies.k(), &actives, &heights)?;
    close(open, &actives)
}

/// The mesh of a frame from copies of its heights: each level has one and the same terrain's level heights of its
/// active region, row by row. The only refusal is want of memory.
pub fn draw_copies(alloc: Global, copies: &LevelCopies) -> Result<Mesh, NoMemory>
    requires copies { AreCopies copies.now }
    ensures mesh { IfOk result (IsMeshOfCopies copies.now) }
{
    cells_stand_in_rows();
    let _levels = copies.actives().levels();
    draw_named::<Brand>(alloc, copies)
}
