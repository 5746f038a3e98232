//! What no event lowers.

ghost use Rattle.plan_holds.specs.Laws.{StepsGoOn, HistoriesGoOn};

/// An event keeps K and the numbers of levels and of passes, and lets no plan number and no count of
/// frames fall.
pub fn steps_go_on()
    ensures { StepsGoOn }
{}

/// So does a list of events.
pub fn histories_go_on()
    ensures { HistoriesGoOn }
{
    steps_go_on();
}
