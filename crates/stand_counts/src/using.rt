//! How many aircraft are used.
ghost use Rattle.std.specs.Prelude.{◌≡◌, ◌+◌, ◌<◌, ◌≤◌, ◌*◌};
ghost use Rattle.sums.specs.Below.{sum_below};
ghost use Rattle.fleet_model.specs.Schedule.{IsPair, stations_in};
ghost use Rattle.fleet_model.specs.Times.{laps_of};
ghost use Rattle.fleet_model.specs.declared.limits.TheConstants.{MAX_DEPARTURES, MAX_STATIONS};
ghost use Rattle.stand_counts.specs.Flights.{laps_by, need_by, used_by};

use crate::counting::need;
use crate::flights::{Flights, MAX_WEIGHT};
use fleet_model::{Pair, Tables};

/// The aircraft that flights use: their need at all stations, and their laps, which are the aircraft aloft or in their
/// turn at the start of the period. Takes no memory.
#[tactic(auto, unfolding(crate::specs::Flights::used_by))]
pub fn used<F: Flights>(tables: &Tables, flights: &F) -> u128
    requires { F.fit tables.now flights.now }
    ensures value { result ≡ used_by tables.now (F.flights tables.now flights.now) }
    ensures few { result ≤ F.most * (F.flights tables.now flights.now).count * (MAX_STATIONS + 2) }
{
    needed(tables, flights) + lapping(tables, flights)
}

// The need, added up over the stations.
fn needed<F: Flights>(tables: &Tables, flights: &F) -> u128
    requires { F.fit tables.now flights.now }
    ensures value { result ≡ sum_below (need_by tables.now (F.flights tables.now flights.now)) (stations_in tables.now) }
    ensures few { result ≤ F.most * (F.flights tables.now flights.now).count * MAX_STATIONS }
    ensures small { result ≤ MAX_WEIGHT * MAX_DEPARTURES * MAX_STATIONS }
{
    let mut sum = 0;
    for station in 0..tables.station_count() {
        sum += need(tables, flights, station);
    }
    sum
}

// The laps, added up over the pairs.
#[tactic(auto, unfolding(crate::specs::Flights::laps_by))]
fn lapping<F: Flights>(tables: &Tables, flights: &F) -> u128
    requires { F.fit tables.now flights.now }
    ensures value { result ≡ laps_by tables.now (F.flights tables.now flights.now) }
    ensures few { result ≤ F.most * (F.flights tables.now flights.now).count * 2 }
    ensures small { result ≤ MAX_WEIGHT * 2 * MAX_DEPARTURES }
{
    let mut sum = 0;
    for place in 0..flights.count(tables) {
        sum += pair_laps(tables, flights, flights.pair(tables, place));
    }
    sum
}

// The laps of a pair.
fn pair_laps<F: Flights>(tables: &Tables, flights: &F, pair: Pair) -> u128
    requires fit { F.fit tables.now flights.now }
    requires pair { IsPair tables.now pair }
    ensures value { result ≡ (F.flights tables.now flights.now).weight pair * laps_of tables.now pair }
    ensures few { result ≤ F.most * 2 }
    ensures small { result ≤ MAX_WEIGHT * 2 }
{
    flights.weight(tables, pair) * u128::from(tables.laps(pair))
}
