//! The idle minutes of islands.
ghost use Rattle.std.specs.Prelude.{◌≡◌, ◌==◌, ◌&&◌, ◌≤◌, ◌++◌, IfOk, OnOk, map, true};
ghost use Rattle.sums.specs.Below.{count_below};
ghost use Rattle.fleet_model.specs.Counts.{choice_at};
ghost use Rattle.fleet_model.specs.Schedule.{stations_in};
ghost use Rattle.stand_counts.specs.Flights.{used_by};
ghost use Rattle.node_aggregate.specs.island_cut.Islands.{balance_by, has_islands, idle_at, idle_minutes, idles_of, is_uneven};
ghost use Rattle.node_aggregate.specs.island_cut.Spare.{AreFleetsOf, AreQuickest, aircraft_in, joined_flights};

use crate::island_cut::idle_minutes::Idle;
use crate::island_cut::joined::{Joined, have_pairs, quickest};
use crate::island_cut::plain_day::is_plain_day;
use crate::island_cut::spares::aircraft;
use crate::island_cut::zeros::empty_minutes;
use entries::{Entries, NoMemory};
use fleet_model::{Assignment, Tables};
use stand_counts::{arrivals, departures, used};
use std::alloc::Global;

/// The stations and minutes at which no aircraft stands in any legal assignment, since all aircraft are needed even if each
/// leg is flown as fast as it can be: by station, then minute. They are the minutes at whose end none of the joined
/// schedule's aircraft stands there; there are none where the tables aren't of one plain day, a leg has no pair, or the joined
/// schedule doesn't balance, leaves an aircraft over or lacks one. (Islands, as in Hane and others 1995.)
pub fn idle(alloc: Global, tables: &Tables) -> Result<Entries<Idle>, NoMemory>
    ensures { IfOk result (λ idles. idles ≡ idles_of tables.now) }
{
    if !is_plain_day(tables) {
        return Ok(Entries::from_vec(Vec::new(alloc)));
    }
    if !have_pairs(tables) {
        return Ok(Entries::from_vec(Vec::new(alloc)));
    }
    let plan = quickest(tables);
    if !uses_all(tables, &plan) {
        return Ok(Entries::from_vec(Vec::new(alloc)));
    }
    let mut idles = Vec::new(alloc);
    for station in 0..tables.station_count() {
        push_idles(alloc, &mut idles, tables, &plan, station)?;
    }
    Ok(Entries::from_vec(idles))
}

// Whether the joined schedule balances and uses all aircraft.
fn uses_all(tables: &Tables, plan: &Assignment) -> bool
    requires { AreFleetsOf tables.now plan.now }
    ensures { result ≡ (balance_by tables.now (joined_flights tables.now (choice_at plan.now)) && (used_by tables.now (joined_flights tables.now (choice_at plan.now)) == aircraft_in tables.now)) }
{
    uneven(tables, plan) == 0 && used(tables, &Joined { plan }) == u128::from(aircraft(tables))
}

// At how many stations not as many of the joined schedule's aircraft come as leave.
fn uneven(tables: &Tables, plan: &Assignment) -> u32
    requires { AreFleetsOf tables.now plan.now }
    ensures { result ≡ count_below (is_uneven tables.now (joined_flights tables.now (choice_at plan.now))) (stations_in tables.now) }
{
    let mut count = 0;
    for station in 0..tables.station_count() {
        if is_uneven(tables, plan, station) {
            count += 1;
        }
    }
    count
}

// Whether not as many of them come to a station as leave it.
fn is_uneven(tables: &Tables, plan: &Assignment, station: u32) -> bool
    requires { AreFleetsOf tables.now plan.now }
    ensures { result ≡ is_uneven tables.now (joined_flights tables.now (choice_at plan.now)) station }
{
    let flights = Joined { plan };
    let last = tables.period() - 1;
    arrivals(tables, &flights, station, last) != departures(tables, &flights, station, last)
}

// Puts a station's idle minutes behind those of the stations before it.
fn push_idles(
    alloc: Global,
    idles: &mut Vec<Idle>,
    tables: &Tables,
    plan: &Assignment,
    station: u32,
) -> Result<(), NoMemory>
    requires plan { AreFleetsOf tables.now plan.now }
    requires quickest { AreQuickest tables.now (choice_at plan.now) }
    requires islands { has_islands tables.now ≡ true }
    ensures { OnOk result (idles.new.items ≡ idles.old.items ++ map (idle_at station) (idle_minutes tables.now station)) }
{
    let minutes = empty_minutes(alloc, tables, &Joined { plan }, station)?;
    push_all(idles, station, minutes.as_slice())
}

// Puts minutes of a station behind the entries so far.
fn push_all(idles: &mut Vec<Idle>, station: u32, minutes: &[u16]) -> Result<(), NoMemory>
    ensures { OnOk result (idles.new.items ≡ idles.old.items ++ map (idle_at station) minutes.now) }
{
    for minute in minutes {
        idles.push(Idle {
            station,
            minute: *minute,
        })?;
    }
    Ok(())
}
