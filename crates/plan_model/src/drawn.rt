//! Laws of active regions.

ghost use Rattle.plan_model.specs.Laws.{EvenActives, NestedActives, ActivesAreFilled};

/// The corners of each active region that isn't empty are even.
pub fn actives_have_even_corners()
    ensures { EvenActives }
{}

/// Half of a finer active region lies at least a margin inside the coarser one.
pub fn actives_are_nested()
    ensures { NestedActives }
{}

/// Each active region lies in its filled region.
pub fn actives_are_filled()
    ensures { ActivesAreFilled }
{}
