//! How many stitches a mesh has.

ghost use Rattle.std.specs.Prelude.{◌≡◌, ◌+◌, ◌*◌, ◌^◌, ◌≤◌};
ghost use Rattle.clip_regions.specs.Regions.{IsWithin};
ghost use Rattle.mesh_model.specs.Nested.{border_count, all_stitch_count};

use crate::sides::{Side, steps_of};
use active_region::Actives;
use clip_regions::Region;

// How many stitches an active region has along its border: one for each two steps of the way round it.
#[tactic(auto, unfolding(mesh_model::specs::Nested::border_count))]
fn border_stitches(active: Region) -> usize
    requires { IsWithin (2 ^ 24) active }
    ensures value { result ≡ border_count active }
    ensures few { result ≤ 2 ^ 26 }
{
    if active.is_empty() {
        return 0;
    }
    (steps_of(&active, Side::North) + steps_of(&active, Side::East)) as usize
}

// How many stitches the mesh of these active regions has.
pub(crate) fn stitch_count(actives: &Actives) -> usize
    ensures value { result ≡ all_stitch_count actives.now }
{
    let mut count = 0;
    for level in 1..actives.levels() {
        count += border_stitches(actives.at(level - 1));
    }
    count
}
