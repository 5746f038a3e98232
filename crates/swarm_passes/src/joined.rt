//! The law of all passes together.

ghost use Rattle.swarm_passes.specs.Laws.{GatheredPassesAreRuns};

/// Where each pass of a swarm did its share, or less of it because the journal was full, a pass that took all others
/// over knows a history that is a whole run or a cut one, and has all numbers.
pub fn gathered_passes_are_runs()
    ensures { GatheredPassesAreRuns }
{}
