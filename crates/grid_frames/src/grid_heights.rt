//! The heights of a grid, for the mesh of a frame.

ghost use Rattle.std.specs.Prelude.{◌≡◌, ◌<◌, length, IsTrue};
ghost use Rattle.clip_regions.specs.Regions.{contains};
ghost use Rattle.terrain_model.specs.Terrain.{level_height};
ghost use Rattle.mesh_model.specs.Height.{active_at};
ghost use Rattle.active_region.specs.Active.{AreActive};

use active_region::Actives;
use height_pyramid::Grid;
use mesh_laws::actives_are_in_reach;
use ring_mesh::Heights;

/// The level heights of a grid at the cells of a frame's active regions.
#[derive(Clone, Copy)]
pub struct GridHeights<'a> {
    /// The terrain.
    pub grid: &'a Grid,
    /// The active regions, the finest first.
    pub actives: Actives,
}

impl Heights for GridHeights<'_> {
    ghost terrain = { λ h. h.grid.now };

    ghost regions = { λ h. h.actives };

    fn height(&self, level: u8, i: i32, j: i32) -> i16
        requires active { AreActive self.now.actives }
        requires level { level < length self.now.actives }
        requires cell { IsTrue (contains (active_at self.now.actives level) i j) }
        ensures value { result ≡ level_height self.now.grid.now level i j }
    {
        actives_are_in_reach();
        self.grid.level_height(level, i, j)
    }
}
