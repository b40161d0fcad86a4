//! The laws of reading the files of a folder, by what is asked for: of these one thing holds and no more. Each function is a
//! law: its contract is the statement, and it does nothing.
ghost use Rattle.sched_read.specs.FileLaws.{OneFirstFault, OneReading, PlansSettle, ReadOrFault, ReadOrFaultNotBoth};

/// Files read as some tables, or they have a first fault.
pub fn read_or_fault()
    ensures { ReadOrFault }
{}

/// Files that read as tables have no first fault.
pub fn read_or_fault_not_both()
    ensures { ReadOrFaultNotBoth }
{}

/// Files read as one set of tables at most.
pub fn one_reading()
    ensures { OneReading }
{}

/// Files have one first fault at most.
pub fn one_first_fault()
    ensures { OneFirstFault }
{}

/// Plans can be settled on tables that read.
pub fn plans_settle()
    ensures { PlansSettle }
{}
