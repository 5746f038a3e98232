//! The heights of vertices.

ghost use Rattle.std.specs.Prelude.{◌≡◌, ◌+◌, ◌<◌, List, length, IsTrue};
ghost use Rattle.clip_regions.specs.declared.region.Region.{Region as PlainRegion};
ghost use Rattle.clip_regions.specs.Regions.{contains};
ghost use Rattle.terrain_model.specs.Terrain.{Terrain, level_height};
ghost use Rattle.mesh_model.specs.Height.{active_at, lower_end, upper_end, vertex_height};
ghost use Rattle.active_region.specs.Active.{AreActive};
ghost use Rattle.mesh_laws.specs.Conditions.{IsCell};
ghost use Rattle.ring_mesh.specs.Listed.{coarser_mean, HasHeights};

use active_region::Actives;
use clip_regions::Region;
use mesh_laws::{ends_are_active, holes_are_in_regions};
use transition::{blended, ends, is_blended};

/// What the heights of a frame are read from: it names a terrain and active regions, the finest first, and
/// answers the terrain's level heights at the cells of these regions.
pub trait Heights {
    ghost terrain: { Self → Terrain };

    ghost regions: { Self → List PlainRegion };

    /// The height at cell (`i`, `j`) of a level's active region, in metres.
    fn height(&self, level: u8, i: i32, j: i32) -> i16
        requires active { AreActive (regions self.now) }
        requires level { level < length (regions self.now) }
        requires cell { IsTrue (contains (active_at (regions self.now) level) i j) }
        ensures value { result ≡ level_height (terrain self.now) level i j };
}

// The blended height of a vertex of a level that isn't the coarsest, of its own height and the coarser
// heights at the two ends.
#[tactic(auto, unfolding(crate::specs::Listed::coarser_mean))]
fn height_by_ends<G: Heights>(
    heights: &G,
    k: u8,
    actives: &Actives,
    level: u8,
    i: i32,
    j: i32,
    own: i16,
) -> i32
    requires heights { HasHeights k actives.now level (G.regions heights.now) }
    requires finer { level + 1 < length actives.now }
    requires cell { IsCell (active_at actives.now level) i j }
    ensures value { result ≡ coarser_mean (G.terrain heights.now) k actives.now level i j own }
{
    ends_are_active();
    holes_are_in_regions();
    let active = actives.at(level);
    let (ai, aj, bi, bj) = ends(i, j);
    let a = heights.height(level + 1, ai, aj);
    let b = heights.height(level + 1, bi, bj);
    blended(k, false, active, i, j, own, a, b)
}

// The height of the vertex at a cell of a level's active region, in thirty-seconds of a metre. The coarser
// heights are asked for only where the height takes something of them.
pub(crate) fn vertex_height<G: Heights>(
    heights: &G,
    k: u8,
    actives: &Actives,
    level: u8,
    i: i32,
    j: i32,
) -> i32
    requires heights { HasHeights k actives.now level (G.regions heights.now) }
    requires cell { IsCell (active_at actives.now level) i j }
    ensures value { result ≡ vertex_height (G.terrain heights.now) k actives.now level i j }
{
    holes_are_in_regions();
    let own = heights.height(level, i, j);
    let active = actives.at(level);
    if level + 1 < actives.levels() && is_blended(k, active, i, j) {
        return height_by_ends(heights, k, actives, level, i, j, own);
    }
    blended(k, true, active, i, j, own, 0, 0)
}
