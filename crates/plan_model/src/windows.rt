//! Laws of windows and of the torus.

ghost use Rattle.plan_model.specs.Laws.{EvenWindows, NestedWindows, OneTileABlock, DistinctPlaces};

/// The corners of every window are even, for K from 2 on.
pub fn windows_have_even_corners()
    ensures { EvenWindows }
{}

/// Half of a finer window lies at least 2^(K − 2) − 1 cells inside the coarser window.
pub fn windows_are_nested()
    ensures { NestedWindows }
{}

/// All cells of a world block have the torus tile of the block.
pub fn blocks_have_one_tile()
    ensures { OneTileABlock }
{}

/// Two different cells of one window have different places in the torus.
pub fn windows_fit_the_torus()
    ensures { DistinctPlaces }
{}
