//! Laws of the start and of the six events.

ghost use Rattle.plan_sound.specs.Laws.{SoundStarts, SoundSteps, WiderBounds, StepsKeepSizes};

use plan_model::{actives_have_even_corners, windows_have_even_corners};

/// The state at the start is sound, for K from 4 to 8 and 1 to 12 levels.
pub fn starts_are_sound()
    ensures { SoundStarts }
{}

/// An event that can be taken leaves a sound state sound, and its numbers rise by at most one.
pub fn steps_keep_soundness()
    ensures { SoundSteps }
{
    windows_have_even_corners();
    actives_have_even_corners();
}

/// A sound state is sound for every greater bound on its numbers.
pub fn sound_bounds_widen()
    ensures { WiderBounds }
{}

/// An event leaves K and the numbers of levels and of passes.
pub fn sizes_are_kept()
    ensures { StepsKeepSizes }
{}
