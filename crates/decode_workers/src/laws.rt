//! A law of filled jobs: the function does nothing, and its contract is the law.

ghost use Rattle.decode_workers.specs.Fills.{FilledJobsGoBack};

/// A job that a pass has of a book can be given back to it by that pass, once it is filled.
pub fn filled_jobs_go_back()
    ensures { FilledJobsGoBack }
{}
