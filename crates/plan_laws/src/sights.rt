//! Laws of where active regions lie.

ghost use Rattle.plan_laws.specs.Drawn.{ActivesAreAsMany, ActivesAreShown};

/// There are as many active regions as filled ones.
pub fn actives_are_as_many()
    ensures { ActivesAreAsMany }
{}

/// Each active region is empty or lies with even corners in a window of its own level, for some viewer
/// within the limits.
pub fn actives_lie_in_windows()
    ensures { ActivesAreShown }
{}
