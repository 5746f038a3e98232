//! Laws over the definitions alone: each function's contract is the law.

ghost use Rattle.run_laws.specs.Busy.{BusyClaimsWaitForFrames};
ghost use Rattle.run_laws.specs.Frames.{OpenFramesAreWatertight};

use plan_holds::{kept_at_the_start, kept_by_each_step, steps_begin_frames};
use plan_laws::{actives_are_as_many, actives_lie_in_windows};
use plan_model::actives_are_nested;
use plan_sound::{
    sizes_are_kept, sound_bounds_widen, starts_are_sound, steps_keep_soundness, windows_are_near,
};
use watertight_laws::meshes_are_watertight;

/// After any events of a book, in any order, the mesh of each open frame is watertight: for every terrain, for each K
/// from 4 to 8 and 1 to 12 levels, whatever the events between the beginning of a frame and now. So each frame that an
/// end closes is watertight.
pub fn open_frames_are_watertight()
    ensures frames { OpenFramesAreWatertight }
{
    starts_are_sound();
    steps_keep_soundness();
    sizes_are_kept();
    sound_bounds_widen();
    kept_at_the_start();
    kept_by_each_step();
    steps_begin_frames();
    windows_are_near();
    actives_are_nested();
    actives_are_as_many();
    actives_lie_in_windows();
    meshes_are_watertight();
}

/// A claim is answered Busy only where a pass has an open frame of the number that is answered, and that frame draws a
/// cell in the answered tile: the tile of the piece that waits, the first unfinished piece of the coarsest level in use
/// that isn't whole.
pub fn busy_claims_wait_for_frames()
    ensures claims { BusyClaimsWaitForFrames }
{}
