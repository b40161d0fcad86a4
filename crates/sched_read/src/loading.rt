ghost use Rattle.std.specs.Prelude.{MatchResult};
ghost use Rattle.fleet_model.specs.Limits.{AreSettings};
ghost use Rattle.sched_read.specs.Reading.{IsFirstBad, Reads, TableBytes};

use crate::legs::read_legs;
use crate::throughs::read_throughs;
use entries::Entries;
use fleet_model::{Costs, LoadError, Settings, Tables, departures_of};
use std::alloc::Global;
use table_rows::fleet_tables::{read_costs, read_fleets};
use table_rows::station_table::read_stations;

/// The tables that five files hold, or their first fault: files are judged in the order of the parameters, in a
/// file the first bad record decides, and in a record the least kind. Each leg departs at its own time alone and must be flown.
pub fn load(
    alloc: Global,
    stations: &[u8],
    fleets: &[u8],
    legs: &[u8],
    costs: &[u8],
    throughs: &[u8],
    settings: Settings,
) -> Result<Tables, LoadError>
    requires { AreSettings settings }
    ensures { let bytes : TableBytes = record { stations = stations.now; fleets = fleets.now; legs = legs.now; costs = costs.now; throughs = throughs.now } in
        MatchResult result (Reads bytes settings) (IsFirstBad bytes settings) }
{
    let stations = read_stations(alloc, stations)?;
    let fleets = read_fleets(alloc, fleets)?;
    let legs = read_legs(alloc, legs, &stations, settings)?;
    let costs = read_costs(alloc, costs, &legs, &fleets)?;
    let throughs = read_throughs(alloc, throughs, &legs)?;
    let departures = departures_of(alloc, &legs)?;
    Ok(Tables {
        stations: Entries::from_vec(stations),
        fleets: Entries::from_vec(fleets),
        legs: Entries::from_vec(legs),
        costs: Costs::from_vec(costs),
        throughs: Entries::from_vec(throughs),
        settings,
        departures: Entries::from_vec(departures),
        windows: false,
        optional: false,
    })
}
