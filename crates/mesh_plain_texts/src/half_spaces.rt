//! Which parts a view keeps.

ghost use Rattle.std.specs.Prelude.{◌≡◌};
ghost use Rattle.std.specs.List.{list_any};
ghost use Rattle.mesh_model.specs.Seen.{is_box_outside, is_kept};

use mesh_model::{Bounds, HalfSpace, Part};
use region_cull::is_outside;

// Whether some half-space of a view drops the parts of a box.
fn is_dropped(view: &[HalfSpace], bounds: &Bounds) -> bool
    ensures { result ≡ list_any (λ space. is_box_outside space bounds.now) view.now }
{
    view.iter().any(|space| is_outside(space, bounds))
}

/// Whether no half-space of a view drops the part.
#[tactic(auto, unfolding(mesh_model::specs::Seen::is_box_kept))]
pub fn is_kept(view: &[HalfSpace], part: &Part) -> bool
    ensures value { result ≡ is_kept view.now part.now }
{
    !is_dropped(view, &part.bounds)
}
