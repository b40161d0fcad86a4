//! What charges take off the worth of prices.
ghost use Rattle.std.specs.Prelude.{◌≡◌, ◌<◌, ◌≤◌, ◌+◌, ◌*◌, ◌*ℤ◌, pos};
ghost use Rattle.sums.specs.Below.{sum_below_ℤ};
ghost use Rattle.fleet_model.specs.Schedule.{days_in, parking_limit, stations_in};
ghost use Rattle.dual_bound.specs.Prices.{AreWithin, charge_of};
ghost use Rattle.dual_bound.specs.Sizes.{IsUpTo};
ghost use Rattle.dual_bound.specs.Worth.{charges_of};

use crate::price_finder::PriceFinder;
use crate::sized::charge;
use fleet_model::Tables;

/// The charges of all stations and days, each for as many aircraft as may stand there.
pub(crate) fn all_charges(tables: &Tables, prices: &PriceFinder<'_>) -> i128
    requires { AreWithin tables.now prices.now }
    ensures value { result ≡ sum_below_ℤ (charges_of tables.now prices.now) (stations_in tables.now) }
    ensures size { IsUpTo (70000 * stations_in tables.now) result }
{
    let mut sum = 0;
    for station in 0..tables.station_count() {
        sum += station_charges(tables, prices, station);
    }
    sum
}

// The charges of a station at the ends of all days, each for as many aircraft as may stand there.
fn station_charges(tables: &Tables, prices: &PriceFinder<'_>, station: u32) -> i128
    requires within { AreWithin tables.now prices.now }
    requires station { station < stations_in tables.now }
    ensures value { result ≡ charges_of tables.now prices.now station }
    ensures size { IsUpTo 70000 result }
{
    let mut sum = 0;
    for day in 0..tables.day_count() {
        sum += day_charges(tables, prices, station, day + 1);
    }
    sum
}

// The charge of a station at the end of a day, for as many aircraft as may stand there.
fn day_charges(tables: &Tables, prices: &PriceFinder<'_>, station: u32, day: u32) -> i128
    requires within { AreWithin tables.now prices.now }
    requires station { station < stations_in tables.now }
    requires first { 1 ≤ day }
    requires day { day ≤ days_in tables.now }
    ensures value { result ≡ charge_of prices.now station day *ℤ pos (parking_limit tables.now station) }
    ensures size { IsUpTo 10000 result }
{
    charge(tables, prices, station, day) * i128::from(limit(tables, station))
}

// How many aircraft may stand at a station at the end of a day, and 0 where there is no limit.
fn limit(tables: &Tables, station: u32) -> u32
    requires { station < stations_in tables.now }
    ensures value { result ≡ parking_limit tables.now station }
    ensures few { result ≤ 10000 }
{
    tables.parking(station).unwrap_or(0)
}
