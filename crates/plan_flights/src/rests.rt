//! Laws of states at rest and of settles.

ghost use Rattle.plan_flights.specs.Flights.{LinesKeepRest, FlightsEndAtRest, SettlesEnd};

use crate::below::laws_below;

/// Every line of a flight leaves a state at rest at rest.
pub fn lines_keep_rest()
    ensures { LinesKeepRest }
{
    laws_below();
}

/// A flight ends at rest.
pub fn flights_end_at_rest()
    ensures { FlightsEndAtRest }
{
    laws_below();
}

/// A settle from a state at rest, with a worker, ends with each level in use whole. It takes at most as many rounds as
/// there are cells of windows in use that no filled region holds when it starts.
pub fn settles_end()
    ensures { SettlesEnd }
{
    laws_below();
}
