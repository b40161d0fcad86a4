//! Prices, rents and charges with their sizes, where they are within their limits.
ghost use Rattle.std.specs.Prelude.{◌≡◌, ◌<◌, ◌≤◌};
ghost use Rattle.fleet_model.specs.Schedule.{days_in, fleets_in, period_of, stations_in};
ghost use Rattle.dual_bound.specs.Prices.{AreWithin, charge_of, price_of, rent_of};
ghost use Rattle.dual_bound.specs.Sizes.{IsUpTo};

use crate::price_finder::PriceFinder;
use fleet_model::Tables;

/// The price of a fleet at a station at a minute.
pub fn price(
    tables: &Tables,
    prices: &PriceFinder<'_>,
    fleet: u32,
    station: u32,
    minute: u16,
) -> i128
    requires within { AreWithin tables.now prices.now }
    requires fleet { fleet < fleets_in tables.now }
    requires station { station < stations_in tables.now }
    requires minute { minute < period_of tables.now }
    ensures value { result ≡ price_of prices.now fleet station minute }
    ensures size { IsUpTo 1 result }
{
    prices.price(fleet, station, minute)
}

/// The rent of an aircraft of a fleet.
pub fn rent(tables: &Tables, prices: &PriceFinder<'_>, fleet: u32) -> i128
    requires within { AreWithin tables.now prices.now }
    requires fleet { fleet < fleets_in tables.now }
    ensures value { result ≡ rent_of prices.now fleet }
    ensures size { IsUpTo 1 result }
{
    prices.rent(fleet)
}

/// The charge of a station at the end of a day, days counted from 1.
pub fn charge(tables: &Tables, prices: &PriceFinder<'_>, station: u32, day: u32) -> i128
    requires within { AreWithin tables.now prices.now }
    requires station { station < stations_in tables.now }
    requires first { 1 ≤ day }
    requires day { day ≤ days_in tables.now }
    ensures value { result ≡ charge_of prices.now station day }
    ensures size { IsUpTo 1 result }
{
    prices.charge(station, day)
}
