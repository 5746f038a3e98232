//! Laws of the events of a flight.

ghost use Rattle.plan_flights.specs.Flights.{FlightsAreRuns, FlightsAreLegal};

use crate::below::laws_below;

/// A flight is the run of its events.
pub fn flights_are_runs()
    ensures { FlightsAreRuns }
{}

/// The history of a flight is legal.
pub fn flights_are_legal()
    ensures { FlightsAreLegal }
{
    laws_below();
}
