//! Laws over the definitions alone: each function's contract is the law.

ghost use Rattle.frame_verdicts.specs.Laws.{PlansAreJudgedWatertight, FramesAreJudgedWatertight, PlanTextsAreJudgedWatertight, FrameTextsAreJudgedWatertight};

use frame_lists::frames_say_their_mesh;
use mesh_laws::parts_have_ring_squares;
use mesh_model::{drawn_mesh, nested_names};
use plan_laws::{actives_are_as_many, actives_lie_in_windows};
use plan_model::actives_are_nested;
use plan_sound::windows_are_near;
use watertight_laws::meshes_are_watertight;

/// The verdict on the lists of a mesh is that it is watertight, with the number of its triangles: each edge is
/// closed, and no face is tilted. So for the active regions of any plan, and for those of a frame.
pub fn meshes_are_judged_watertight()
    ensures plans { PlansAreJudgedWatertight }
    ensures frames { FramesAreJudgedWatertight }
{
    drawn_mesh();
    nested_names();
    parts_have_ring_squares();
    meshes_are_watertight();
}

/// The verdict on the text of a frame is that it is watertight, with the number of its triangles: for each terrain,
/// each K, each frame number of 64 bits, each viewer within the limits, and the active regions that a plan gives
/// for filled regions, each empty or in a window of its own level, and those of a frame.
pub fn frame_texts_are_judged_watertight()
    ensures plans { PlanTextsAreJudgedWatertight }
    ensures frames { FrameTextsAreJudgedWatertight }
{
    actives_are_nested();
    actives_are_as_many();
    actives_lie_in_windows();
    windows_are_near();
    frames_say_their_mesh();
    meshes_are_judged_watertight();
}
