//! Places of departures and needs of stations, found once.
ghost use Rattle.std.specs.Prelude.{◌≡◌, ◌<◌, ◌≤◌, ℕ, IfOk, length, slice_index};
ghost use Rattle.fleet_model.specs.Schedule.{legs_in, stations_in};
ghost use Rattle.lines_of_flying.specs.Grounds.{ArePlaces, IsGround, need_at, place_of_departure};

use crate::free::place_of;
use crate::ground::{Ground, Movement};
use crate::needs::need;
use entries::NoMemory;
use std::alloc::Global;

/// What is asked again for each leg.
#[derive(Drop)]
pub(crate) struct Places {
    /// By leg: how many free departures come before its own.
    pub departures: Vec<u32>,
    /// By station: the aircraft that must be there at the period's start for the free departures.
    pub needs: Vec<u32>,
}

/// The places of all departures, and the needs of all stations.
pub(crate) fn places_of(alloc: Global, ground: &Ground<'_>) -> Result<Places, NoMemory>
    requires { IsGround ground.now }
    ensures { IfOk result (λ places. ArePlaces ground.now places) }
{
    let departures = departure_places(alloc, ground)?;
    let needs = needs_of(alloc, ground)?;
    Ok(Places { departures, needs })
}

// By leg, how many free departures come before its own.
fn departure_places(alloc: Global, ground: &Ground<'_>) -> Result<Vec<u32>, NoMemory>
    requires { IsGround ground.now }
    ensures each_leg { IfOk result (λ places. length places.items ≡ legs_in ground.now.tables.now) }
    ensures each { IfOk result (λ places. (l : ℕ) → l < legs_in ground.now.tables.now → slice_index places.items l ≡ place_of_departure ground.now l) }
{
    let mut places = Vec::new(alloc);
    for leg in 0..ground.tables.leg_count() {
        places.push(place_of(ground, Movement::Departure, leg))?;
    }
    Ok(places)
}

// By station, the aircraft that must be there at the period's start.
fn needs_of(alloc: Global, ground: &Ground<'_>) -> Result<Vec<u32>, NoMemory>
    requires { IsGround ground.now }
    ensures each_station { IfOk result (λ needs. length needs.items ≡ stations_in ground.now.tables.now) }
    ensures each { IfOk result (λ needs. (s : ℕ) → s < stations_in ground.now.tables.now → slice_index needs.items s ≡ need_at ground.now s) }
    ensures few { IfOk result (λ needs. (s : ℕ) → s < stations_in ground.now.tables.now → need_at ground.now s ≤ legs_in ground.now.tables.now) }
{
    let mut needs = Vec::new(alloc);
    for station in 0..ground.tables.station_count() {
        needs.push(need(ground, station))?;
    }
    Ok(needs)
}
