//! The law of verdicts: its contract is the statement, and it does nothing.
ghost use Rattle.plan_judge.specs.Laws.{OneVerdict};

/// An assignment has one verdict at most.
pub fn one_verdict()
    ensures { OneVerdict }
{}
