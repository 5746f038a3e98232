//! Laws over the definitions alone: each function's contract is the law.

ghost use Rattle.course_laws.specs.Laws.{CoursesPutWatertightFrames};

use frame_verdicts::frame_texts_are_judged_watertight;
use plan_flights::flights_are_legal;
use plan_holds::{kept_at_the_start, kept_by_each_step, steps_begin_frames};
use plan_laws::{actives_are_as_many, actives_lie_in_windows};
use plan_model::{actives_are_nested, windows_have_even_corners};
use plan_sound::{
    sizes_are_kept, sound_bounds_widen, starts_are_sound, steps_keep_soundness, windows_are_near,
};
use watertight_laws::meshes_are_watertight;

/// Each file that a course puts is the text of a frame, and the frame's mesh is watertight: for the frame of whole
/// windows, for every script of a play and for every flight, over every terrain, whatever is done between the
/// beginning of a frame and its end. Where the text is that of the whole mesh, the verdict on it is watertight too,
/// with the number of its triangles. The texts of the parts that a view keeps are the other ones.
pub fn puts_are_watertight()
    ensures courses { CoursesPutWatertightFrames }
{
    starts_are_sound();
    steps_keep_soundness();
    sizes_are_kept();
    sound_bounds_widen();
    kept_at_the_start();
    kept_by_each_step();
    steps_begin_frames();
    windows_are_near();
    windows_have_even_corners();
    actives_are_nested();
    actives_are_as_many();
    actives_lie_in_windows();
    meshes_are_watertight();
    frame_texts_are_judged_watertight();
    flights_are_legal();
}
