//! Laws of runs of events.

ghost use Rattle.plan_histories.specs.Runs.{RunsAreLegal, RunsLeaveStates, RunsHaveTheirEvents, LegalHistoriesAreRuns};

/// A run whose every event is allowed leaves a legal history.
pub fn runs_are_legal()
    ensures { RunsAreLegal }
{}

/// A run leaves the state that its history leaves.
pub fn runs_leave_states()
    ensures { RunsLeaveStates }
{}

/// The history of a run has the run's events.
pub fn runs_have_their_events()
    ensures { RunsHaveTheirEvents }
{}

/// A legal history is what the run of its events leaves.
pub fn legal_histories_are_runs()
    ensures { LegalHistoriesAreRuns }
{}
