//! Laws of runs.

ghost use Rattle.swarm_laws.specs.Laws.{WholeSharesAreRuns, CutSharesAreCutRuns};

/// A history in which each pass's entries do all of its share is a whole run.
pub fn whole_shares_are_runs()
    ensures { WholeSharesAreRuns }
{}

/// A history in which each pass's entries do no more than its share, and those of one pass less, is a cut run.
pub fn cut_shares_are_cut_runs()
    ensures { CutSharesAreCutRuns }
{}
