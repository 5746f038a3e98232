//! The least and the greatest of some heights.

ghost use Rattle.std.specs.Prelude.{◌<◌, length, All, FitsSigned};
ghost use Rattle.std.specs.Int.{w16};
ghost use Rattle.height_pyramid.specs.Extremes.{IsLeast, IsGreatest};

// The least and the greatest height of a grid, in metres.
#[derive(Clone, Copy)]
pub(crate) struct Extremes {
    pub(crate) least: i16,
    pub(crate) most: i16,
}

// Finds both in one pass.
pub(crate) fn extremes_of(heights: &[i16]) -> Extremes
    requires { 0 < length heights.now }
    ensures least { IsLeast result.least heights.now }
    ensures most { IsGreatest result.most heights.now }
    ensures short { All (FitsSigned w16) heights.now }
{
    let mut least = heights[0];
    let mut most = heights[0];
    for height in heights {
        least = least.min(*height);
        most = most.max(*height);
    }
    Extremes { least, most }
}
