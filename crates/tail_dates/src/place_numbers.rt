//! Places by number: stations first, in the order of their table, then flights in that of theirs.
ghost use Rattle.std.specs.Prelude.{◌≡◌, ◌≤◌, ◌<◌};
ghost use Rattle.tail_dates.specs.Places.{IsPlace, place_number, place_numbered, places_in};

use crate::tails::Place;
use fleet_model::Tables;

/// How many places the tables have.
pub(crate) fn place_count(tables: &Tables) -> u64
    ensures value { result ≡ places_in tables.now }
    ensures few { result ≤ 1200 }
{
    u64::from(tables.station_count()) + u64::from(tables.leg_count())
}

/// The number of a place. One that the tables lack comes after all others.
pub(crate) fn number_of(tables: &Tables, place: Place) -> u64
    ensures { result ≡ place_number tables.now place }
{
    match place {
        Place::Stands { station } if station < tables.station_count() => u64::from(station),
        Place::Flies { leg } if leg < tables.leg_count() => {
            u64::from(tables.station_count()) + u64::from(leg)
        }
        _ => place_count(tables),
    }
}

/// The place with a number.
pub(crate) fn place_of(tables: &Tables, number: u64) -> Place
    requires { number < places_in tables.now }
    ensures value { result ≡ place_numbered tables.now number }
    ensures known { IsPlace tables.now result }
    ensures back { place_number tables.now result ≡ number }
{
    let stations = u64::from(tables.station_count());
    if number < stations {
        Place::Stands {
            station: number as u32,
        }
    } else {
        Place::Flies {
            leg: (number - stations) as u32,
        }
    }
}
