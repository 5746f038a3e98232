//! Laws over the definitions alone: each function does nothing, and its contract is the law.

ghost use Rattle.four_point.specs.Laws.{ResidualSize, EvenResidual, EvenPrediction, PredictionFromPatch, ValueWithinHalf, WithinHalfIsNear, BroughtWithinHalf, BroughtFits, BroughtSame, CodeByOne, CodeSize};

/// Between heights of 16 bits a residual is below 2^17 in size.
pub fn residual_size()
    ensures { ResidualSize }
{}

/// Where a coarser level takes the samples at even places unchanged, their residuals are 0.
pub fn even_residual()
    ensures { EvenResidual }
{}

/// A cell with both coordinates even is predicted as the coarser height, and the predictions of a block's cells depend
/// on the heights of its patch alone.
pub fn predictions()
    ensures even { EvenPrediction }
    ensures patch { PredictionFromPatch }
{}

/// The value of a height's code lies within half a step of the height, and so does the nearest height of 16 bits.
pub fn values_are_near()
    ensures value { ValueWithinHalf }
    ensures near { WithinHalfIsNear }
    ensures brought { BroughtWithinHalf }
{}

/// The nearest height of 16 bits is one, and it is the value itself where that is one.
pub fn brought_heights()
    ensures fits { BroughtFits }
    ensures same { BroughtSame }
{}

/// By the step 1 the code of a height is its residual.
pub fn code_by_one()
    ensures { CodeByOne }
{}

/// The code of a height of 16 bits is below 2^17 in size, by every step.
pub fn code_size()
    ensures { CodeSize }
{}
