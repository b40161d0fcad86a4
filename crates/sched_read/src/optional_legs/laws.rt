//! The laws of reading optional legs: of every file one thing holds beside tables and no more. Each function is a law: its
//! contract is the statement, and it does nothing.
ghost use Rattle.std.specs.Prelude.{◌≡◌};
ghost use Rattle.sched_read.specs.declared.optional_legs.optional.TheConstants.{MAX_OPTIONAL};
ghost use Rattle.sched_read.specs.optional_legs.Laws.{OneFirstOptionalFault, OneOptionalReading, OptionalOrFault, OptionalOrFaultNotBoth};

/// A file reads as optional legs of the tables, or it has a first fault.
pub fn optional_or_fault()
    ensures { OptionalOrFault }
{}

/// A file that reads has no first fault.
pub fn optional_or_fault_not_both()
    ensures { OptionalOrFaultNotBoth }
{}

/// With the optional legs of a file there is one set of tables at most.
pub fn one_reading()
    ensures { OneOptionalReading }
{}

/// A file has one first fault at most.
pub fn one_first_fault()
    ensures { OneFirstOptionalFault }
{}

/// The most records of the table in numbers.
pub fn limits_in_numbers()
    ensures optional { MAX_OPTIONAL ≡ 1000 }
{}
