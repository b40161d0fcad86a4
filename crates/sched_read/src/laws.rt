//! The laws of reading: of every five files one thing holds and no more, and a period of one day starts with the day.
//! Each function is a law: its contract is the statement, and it does nothing.
ghost use Rattle.sched_read.specs.Laws.{OneDay, OneFirstFault, OneReading, ReadOrFault, ReadOrFaultNotBoth};

/// Five files read as some tables, or they have a first fault.
pub fn read_or_fault()
    ensures { ReadOrFault }
{}

/// Files that read as tables have no first fault.
pub fn read_or_fault_not_both()
    ensures { ReadOrFaultNotBoth }
{}

/// Files read as one set of tables at most.
pub fn one_reading()
    ensures { OneReading }
{}

/// Files have one first fault at most.
pub fn one_first_fault()
    ensures { OneFirstFault }
{}

/// Departures of a period of one day count from the day start.
pub fn one_day()
    ensures { OneDay }
{}
