//! Arrivals, departures, need and stands at a station.
ghost use Rattle.std.specs.Prelude.{◌≡◌, ◌+◌, ◌<◌, ◌≤◌, ◌*◌};
ghost use Rattle.fleet_model.specs.declared.limits.TheConstants.{MAX_DEPARTURES};
ghost use Rattle.stand_counts.specs.AtDepartures.{excess_at};
ghost use Rattle.stand_counts.specs.Flights.{arrived_by, departed_by, excess_by, need_by, stand_by};

use crate::flights::{Flights, MAX_WEIGHT};
use fleet_model::Tables;

/// How much has left a station by the end of a minute. Takes no memory.
#[tactic(auto, unfolding(crate::specs::Flights::departed_by))]
pub fn departures<F: Flights>(tables: &Tables, flights: &F, station: u32, minute: u16) -> u128
    requires { F.fit tables.now flights.now }
    ensures value { result ≡ departed_by tables.now (F.flights tables.now flights.now) station minute }
    ensures few { result ≤ F.most * (F.flights tables.now flights.now).count }
    ensures small { result ≤ MAX_WEIGHT * MAX_DEPARTURES }
{
    let mut sum = 0;
    for place in 0..flights.count(tables) {
        let pair = flights.pair(tables, place);
        if tables.leg(pair.leg).from == station && tables.departure(pair) <= minute {
            sum += flights.weight(tables, pair);
        }
    }
    sum
}

/// How much has come to a station and is ready by the end of a minute. Takes no memory.
#[tactic(auto, unfolding(crate::specs::Flights::arrived_by))]
pub fn arrivals<F: Flights>(tables: &Tables, flights: &F, station: u32, minute: u16) -> u128
    requires { F.fit tables.now flights.now }
    ensures value { result ≡ arrived_by tables.now (F.flights tables.now flights.now) station minute }
    ensures few { result ≤ F.most * (F.flights tables.now flights.now).count }
    ensures small { result ≤ MAX_WEIGHT * MAX_DEPARTURES }
{
    let mut sum = 0;
    for place in 0..flights.count(tables) {
        let pair = flights.pair(tables, place);
        if tables.leg(pair.leg).to == station && tables.ready(pair) <= minute {
            sum += flights.weight(tables, pair);
        }
    }
    sum
}

// By how much departures from a station pass arrivals by the end of a minute.
#[tactic(auto, unfolding(crate::specs::Flights::excess_by))]
fn excess_by<F: Flights>(tables: &Tables, flights: &F, station: u32, minute: u16) -> u128
    requires { F.fit tables.now flights.now }
    ensures value { result ≡ excess_by tables.now (F.flights tables.now flights.now) station minute }
    ensures few { result ≤ F.most * (F.flights tables.now flights.now).count }
    ensures small { result ≤ MAX_WEIGHT * MAX_DEPARTURES }
{
    let left = departures(tables, flights, station, minute);
    left.saturating_sub(arrivals(tables, flights, station, minute))
}

/// The aircraft that must be at a station at the start of the period, so that none is ever lacking there. Takes no memory.
///
/// The greatest excess is that of a minute in which a pair departs, so only these are looked at.
#[tactic(auto, using(crate::proofs::NeedFound::need_found), unfolding(sums::specs::Below::max_below))]
pub fn need<F: Flights>(tables: &Tables, flights: &F, station: u32) -> u128
    requires { F.fit tables.now flights.now }
    ensures value { result ≡ need_by tables.now (F.flights tables.now flights.now) station }
    ensures few { result ≤ F.most * (F.flights tables.now flights.now).count }
    ensures small { result ≤ MAX_WEIGHT * MAX_DEPARTURES }
{
    let mut most = 0;
    for place in 0..flights.count(tables) {
        most = most.max(excess_at(tables, flights, station, place));
    }
    most
}

// The excess in the minute in which a pair departs, where it weighs something and departs from the station.
fn excess_at<F: Flights>(tables: &Tables, flights: &F, station: u32, place: u32) -> u128
    requires fit { F.fit tables.now flights.now }
    requires place { place < (F.flights tables.now flights.now).count }
    ensures value { result ≡ excess_at tables.now (F.flights tables.now flights.now) station place }
    ensures few { result ≤ F.most * (F.flights tables.now flights.now).count }
    ensures small { result ≤ MAX_WEIGHT * MAX_DEPARTURES }
{
    let pair = flights.pair(tables, place);
    if tables.leg(pair.leg).from == station && flights.weight(tables, pair) != 0 {
        excess_by(tables, flights, station, tables.departure(pair))
    } else {
        0
    }
}

/// The aircraft on the ground at a station at the end of a minute, where so many must be there at the start of the period.
/// Takes no memory.
#[tactic(auto, unfolding(crate::specs::Flights::stand_by))]
pub fn stand<F: Flights>(
    tables: &Tables,
    flights: &F,
    station: u32,
    minute: u16,
    need: u128,
) -> u128
    requires fit { F.fit tables.now flights.now }
    requires need { need ≡ need_by tables.now (F.flights tables.now flights.now) station }
    requires small { need ≤ MAX_WEIGHT * MAX_DEPARTURES }
    ensures value { result ≡ stand_by tables.now (F.flights tables.now flights.now) station minute }
    ensures few { result ≤ need + F.most * (F.flights tables.now flights.now).count }
{
    let came = need + arrivals(tables, flights, station, minute);
    came.saturating_sub(departures(tables, flights, station, minute))
}
