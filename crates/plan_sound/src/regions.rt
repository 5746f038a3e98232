//! Laws of the regions of a sound state.

ghost use Rattle.plan_sound.specs.Laws.{WindowsAreNear, WindowsHaveCells, StripsAreInside, SoundStrips, FilledAreNear, SoundFrames, ActivesAreNear, OffersAreThere};

use plan_model::actives_have_even_corners;

/// The window of a viewer within the limits has no corner farther from zero than 2^24.
pub fn windows_are_near()
    ensures { WindowsAreNear }
{}

/// Every window has a cell.
pub fn windows_have_cells()
    ensures { WindowsHaveCells }
{}

/// The first strip of a filled region lies in its window.
pub fn strips_are_inside()
    ensures { StripsAreInside }
{}

/// The current strip of a level of a sound state lies in the level's window.
pub fn strips_are_sound()
    ensures { SoundStrips }
{}

/// The filled regions of a sound state have no corner farther from zero than 2^24.
pub fn filled_regions_are_near()
    ensures { FilledAreNear }
{}

/// The frame that a sound state would begin has an active region for each level, each empty or in a window
/// of its level.
pub fn frames_are_sound()
    ensures { SoundFrames }
{
    actives_have_even_corners();
}

/// The active regions of a sound frame have no corner farther from zero than 2^24.
pub fn actives_are_near()
    ensures { ActivesAreNear }
{}

/// Each piece that can be claimed is of a level that is there.
pub fn offers_are_there()
    ensures { OffersAreThere }
{}
