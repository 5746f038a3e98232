//! A law of frames: the function does nothing, and its contract is the law.

ghost use Rattle.clip_frames.specs.Beginnings.{FramesAreThoseOfTheirBeginning};

/// The frame that a beginning gives a pass is the one that is next in the state in which its turn came.
pub fn frames_are_those_of_their_beginning()
    ensures law { FramesAreThoseOfTheirBeginning }
{}
