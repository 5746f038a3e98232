//! Laws of the coarser cells that a region needs.

ghost use Rattle.plan_laws.specs.Needs.{NeedsHaveCells, NeedsAreMonotone, NeedsInCoarserWindows, NeedsInPatches};

/// A region of some cells needs some cells.
pub fn needs_have_cells()
    ensures { NeedsHaveCells }
{}

/// What a larger region needs holds what a smaller one needs.
pub fn needs_are_monotone()
    ensures { NeedsAreMonotone }
{}

/// What a region in a window needs lies in the next coarser window, for K from 3 on.
pub fn needs_lie_in_coarser_windows()
    ensures { NeedsInCoarserWindows }
{}

/// What a piece needs lies in the patch of its block.
pub fn needs_lie_in_patches()
    ensures { NeedsInPatches }
{}
