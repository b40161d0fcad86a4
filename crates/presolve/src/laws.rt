//! The laws of presolve, over all tables, kept pairs and removals. Each function is a law: its contract is the
//! statement, and it does nothing.
ghost use Rattle.presolve.specs.Laws.{BusyIsUnderWay, RemovalsAreFew, RemovalsAreOne};

/// The aircraft that a pair keeps busy at the end of a minute are its flights under way then.
pub fn busy_is_under_way()
    ensures { BusyIsUnderWay }
{}

/// Any two lists of removals are of the same pairs in the same order.
pub fn removals_are_one()
    ensures { RemovalsAreOne }
{}

/// There are no more removals than pairs that tables may have.
pub fn removals_are_few()
    ensures { RemovalsAreFew }
{}
