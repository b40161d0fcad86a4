ghost use Rattle.std.specs.Prelude.{◌≡◌, ◌≤◌, IfOk, length};
ghost use Rattle.table_maker.specs.Made.{CanBeMade, made_tables, tables_of_trips};
ghost use Rattle.table_maker.specs.Trips.{spokes_for};

use crate::texts::{costs_text, fleets_text, legs_text, stations_text, throughs_text};
use crate::trips::{RoundTrip, round_trips};
use entries::{Entries, NoMemory};
use std::alloc::Global;

/// The texts of five tables, as their files hold them.
#[derive(Drop)]
pub struct MadeTables {
    /// `stations.csv`
    pub stations: Entries<u8>,
    /// `fleets.csv`
    pub fleets: Entries<u8>,
    /// `legs.csv`
    pub legs: Entries<u8>,
    /// `costs.csv`
    pub costs: Entries<u8>,
    /// `throughs.csv`
    pub throughs: Entries<u8>,
}

/// The tables of so many legs, by the draws of a number: round trips between a hub and its spokes, on which two fleets
/// may fly each leg. The same number and count make the same texts.
pub fn make_tables(alloc: Global, number: u32, legs: u32) -> Result<MadeTables, NoMemory>
    requires { CanBeMade number legs }
    ensures made { IfOk result (λ made. made ≡ made_tables number legs) }
{
    let count = legs / 2;
    let trips = round_trips(alloc, number, count, spokes_for(count as usize))?;
    Ok(tables_of(alloc, trips.as_slice())?)
}

/// The tables of these round trips.
#[tactic(auto, unfolding(crate::specs::Made::tables_of_trips))]
fn tables_of(alloc: Global, trips: &[RoundTrip]) -> Result<MadeTables, NoMemory>
    requires { length trips.now ≤ 500 }
    ensures { IfOk result (λ made. made ≡ tables_of_trips trips.now) }
{
    let stations = stations_text(alloc, spokes_for(trips.len()))?;
    let fleets = fleets_text(alloc, trips.len())?;
    let legs = legs_text(alloc, trips)?;
    let costs = costs_text(alloc, trips)?;
    let throughs = throughs_text(alloc, trips)?;
    Ok(MadeTables {
        stations: Entries::from_vec(stations),
        fleets: Entries::from_vec(fleets),
        legs: Entries::from_vec(legs),
        costs: Entries::from_vec(costs),
        throughs: Entries::from_vec(throughs),
    })
}

/// How many spokes the hub has for so many round trips.
fn spokes_for(trips: usize) -> u8
    requires { trips ≤ 500 }
    ensures { result ≡ spokes_for trips }
{
    1 + (trips / 10) as u8
}
