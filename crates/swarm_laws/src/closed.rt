//! A law of the frames that a history closes.

ghost use Rattle.swarm_laws.specs.Laws.{FramesAreThoseOfPasses};

/// The frames that a history closes are those that its passes close, pass after pass, in another order.
pub fn frames_are_those_of_passes()
    ensures { FramesAreThoseOfPasses }
{}
