//! The law of refused events.

ghost use Rattle.plan_model.specs.Laws.{RefusalsChangeNothing};

/// A refused event changes nothing.
pub fn refusals_change_nothing()
    ensures { RefusalsChangeNothing }
{}
