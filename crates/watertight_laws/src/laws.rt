//! Laws over the definitions alone: each function's contract is the law.

ghost use Rattle.watertight_laws.specs.Laws.{EdgesAreCounted, NestedEdgesClose, DrawnEdgesClose, ActiveEdgesClose, PlansAreWatertight, FramesAreWatertight};

use mesh_laws::parts_have_ring_squares;
use mesh_model::{nested_names, vertices_apart};
use plan_model::{actives_are_nested, actives_have_even_corners};

/// How many triangles of the mesh of nested active regions go from one vertex to another, in closed form.
pub fn edges_are_counted()
    ensures { EdgesAreCounted }
{
    vertices_apart();
    parts_have_ring_squares();
}

/// An edge on the border of the coarsest active region is in one triangle, and any other edge in two, once
/// in each direction: for nested regions, for those of any plan, and for those of a frame.
pub fn edges_close()
    ensures nested { NestedEdgesClose }
    ensures drawn { DrawnEdgesClose }
    ensures active { ActiveEdgesClose }
{
    vertices_apart();
    nested_names();
    parts_have_ring_squares();
    actives_are_nested();
    actives_have_even_corners();
}

/// The mesh of the active regions of any plan, and so of any frame, is watertight: heights agree where levels
/// meet, stitches are flat, each edge is closed, and the squares cover each place once.
pub fn meshes_are_watertight()
    ensures plans { PlansAreWatertight }
    ensures frames { FramesAreWatertight }
{
    vertices_apart();
    nested_names();
    parts_have_ring_squares();
    actives_are_nested();
    actives_have_even_corners();
}
