//! Tables whose legs depart at several times.
ghost use Rattle.std.specs.Prelude.{◌≡◌, ◌<◌, ◌≤◌, All, IfOk, MatchResult, length, slice_index_or};
ghost use Rattle.csv_fields.specs.Record.{records_of};
ghost use Rattle.fleet_model.specs.Period.{minutes_of};
ghost use Rattle.fleet_model.specs.Windows.{no_leg};
ghost use Rattle.fleet_model.specs.declared.limits.TheConstants.{MAX_LEGS};
ghost use Rattle.fleet_model.specs.declared.refusals.TableFile.TheVariants as file;
ghost use Rattle.sched_read.specs.retime_windows.Times.{AreMoves, AreWindows, HaveWindows, ReadsWindows, leg_in_windows, leg_timed};
ghost use Rattle.sched_read.specs.retime_windows.Windows.{WindowsBad};
ghost use Rattle.sums.specs.Places.{list_below};
ghost use Rattle.table_rows.specs.Outcome.{IsFirstFault};

use crate::retime_windows::reading::read_windows;
use crate::retime_windows::times::times_with;
use crate::retime_windows::window::Window;
use entries::{Entries, NoMemory};
use fleet_model::{Leg, LoadError, Shifts, Tables, departures_of};
use std::alloc::Global;

/// The tables with the windows of `windows.csv`, or the first fault of the file. A leg then has its own time and those of its
/// windows, whatever times it had; all else stays. The tables keep that the file was read, also where it has no record.
pub fn add_windows(alloc: Global, tables: Tables, bytes: &[u8]) -> Result<Tables, LoadError>
    ensures { MatchResult result (ReadsWindows tables bytes.now)
        (IsFirstFault file.Windows (WindowsBad tables (records_of bytes.now))) }
{
    let windows = read_windows(alloc, &tables, bytes)?;
    Ok(with_windows(alloc, tables, &windows)?)
}

// The tables with windows.
fn with_windows(alloc: Global, tables: Tables, windows: &[Window]) -> Result<Tables, NoMemory>
    requires { AreWindows tables windows.now }
    ensures { IfOk result (HaveWindows tables windows.now) }
{
    let period = tables.settings.minutes();
    let mut legs = tables.legs.into_vec();
    give_times(&mut legs, windows, period);
    let departures = departures_of(alloc, &legs)?;
    Ok(Tables {
        stations: tables.stations,
        fleets: tables.fleets,
        legs: Entries::from_vec(legs),
        costs: tables.costs,
        throughs: tables.throughs,
        settings: tables.settings,
        departures: Entries::from_vec(departures),
        windows: true,
        optional: tables.optional,
    })
}

// Gives each leg its own time and those of its windows.
fn give_times(legs: &mut Vec<Leg>, windows: &[Window], period: u16)
    requires windows { AreMoves windows.now }
    requires few { length legs.old.items ≤ MAX_LEGS }
    requires each { All (λ leg. leg.dep < period) legs.old.items }
    requires some_minutes { minutes_of 1 ≤ period }
    requires few_minutes { period ≤ 10080 }
    ensures { legs.new.items ≡ list_below (λ l. leg_in_windows period windows.now l (slice_index_or legs.old.items l no_leg)) (length legs.old.items) }
{
    for place in 0..legs.len() {
        let times = times_with(windows, place as u32, legs[place].dep, period);
        give(&mut legs[place], times);
    }
}

// Gives a leg other times.
fn give(leg: &mut Leg, times: Shifts)
    ensures { leg.new ≡ leg_timed leg.old times }
{
    leg.shifts = times;
}
