//! The laws of reading windows: of every file one thing holds beside tables and no more; and of settling: what stays the same.
//! Each function is a law: its contract is the statement, and it does nothing.
ghost use Rattle.std.specs.Prelude.{◌≡◌};
ghost use Rattle.sched_read.specs.declared.retime_windows.window.TheConstants.{MAX_WINDOWS, MAX_WINDOWS_OF_LEG};
ghost use Rattle.sched_read.specs.retime_windows.Laws.{OneFirstWindowsFault, OneWindowsReading, WindowsOrFault, WindowsOrFaultNotBoth};
ghost use Rattle.sched_read.specs.retime_windows.SettledLaws.{SettledCostsAlike, SettledCountsAlike, SettledIsLegal, SettledOnce};

/// A file reads as windows of the tables, or it has a first fault.
pub fn windows_or_fault()
    ensures { WindowsOrFault }
{}

/// A file that reads has no first fault.
pub fn windows_or_fault_not_both()
    ensures { WindowsOrFaultNotBoth }
{}

/// With the windows of a file there is one set of tables at most.
pub fn one_reading()
    ensures { OneWindowsReading }
{}

/// A file has one first fault at most.
pub fn one_first_fault()
    ensures { OneFirstWindowsFault }
{}

/// The limits of windows in numbers.
pub fn limits_in_numbers()
    ensures windows { MAX_WINDOWS ≡ 8000 }
    ensures windows_of_leg { MAX_WINDOWS_OF_LEG ≡ 8 }
{}

/// By a settled plan as much departs and arrives at each station and minute, and as many aircraft are needed, stand and are used.
pub fn settled_counts_alike()
    ensures { SettledCountsAlike }
{}

/// A settled plan is legal exactly where the plan is.
pub fn settled_is_legal()
    ensures { SettledIsLegal }
{}

/// A settled plan costs as much.
pub fn settled_costs_alike()
    ensures { SettledCostsAlike }
{}

/// What is settled once more stays as it is.
pub fn settled_once()
    ensures { SettledOnce }
{}
