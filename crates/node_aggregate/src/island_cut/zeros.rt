ghost use Rattle.std.specs.Prelude.{◌≡◌, ◌<◌, ◌≤◌, ◌++◌, ◌∷◌, [], if◌then◌else◌, IfOk, OnOk};
ghost use Rattle.fleet_model.specs.Counts.{weights_of};
ghost use Rattle.fleet_model.specs.Legal.{IsAssignment};
ghost use Rattle.fleet_model.specs.Schedule.{IsPair, fleets_in, period_of};
ghost use Rattle.node_aggregate.specs.island_cut.Zeros.{StaysSo, comes_in, empty_of, leaves_in, none_left, zeros_of};

use entries::{Entries, NoMemory};
use fleet_model::{Assignment, Pair, Tables};
use stand_counts::{Flights, Planned, need, stand};
use std::alloc::Global;

/// The minutes of the period at whose end none of a fleet's aircraft stands at a station, rising.
pub fn zero_minutes(
    alloc: Global,
    tables: &Tables,
    plan: &Assignment,
    fleet: u32,
    station: u32,
) -> Result<Entries<u16>, NoMemory>
    requires plan { IsAssignment tables.now plan.now }
    requires fleet { fleet < fleets_in tables.now }
    ensures { IfOk result (λ minutes. minutes ≡ zeros_of tables.now (weights_of plan.now) fleet station) }
{
    empty_minutes(alloc, tables, &Planned { plan, fleet }, station)
}

/// The minutes of the period at whose end none of some flights' aircraft stands at a station, rising.
///
/// What stands there changes only where an aircraft becomes ready or departs, so only then it is counted anew.
pub(crate) fn empty_minutes<F: Flights>(
    alloc: Global,
    tables: &Tables,
    flights: &F,
    station: u32,
) -> Result<Entries<u16>, NoMemory>
    requires { F.fit tables.now flights.now }
    ensures { IfOk result (λ minutes. minutes ≡ empty_of tables.now (F.flights tables.now flights.now) station) }
{
    let need = need(tables, flights, station);
    let mut minutes = Vec::new(alloc);
    let mut next = 0;
    let mut zero = false;
    for minute in 0..tables.period() {
        if minute == next {
            zero = stand(tables, flights, station, minute, need) == 0;
            next = next_event(tables, flights, station, minute);
        }
        push_where(&mut minutes, minute, zero)?;
    }
    Ok(Entries::from_vec(minutes))
}

// The next minute in which an aircraft of the flights becomes ready at a station or departs from there; the end of the period
// where none does any more.
fn next_event<F: Flights>(tables: &Tables, flights: &F, station: u32, minute: u16) -> u16
    requires fit { F.fit tables.now flights.now }
    requires minute { minute < period_of tables.now }
    ensures later { minute < result }
    ensures so { StaysSo (none_left tables.now (F.flights tables.now flights.now) station) minute result }
{
    let mut next = tables.period();
    for place in 0..flights.count(tables) {
        let pair = flights.pair(tables, place);
        let comes = comes_in(tables, flights, station, pair);
        let leaves = leaves_in(tables, flights, station, pair);
        next = sooner(minute, leaves, sooner(minute, comes, next));
    }
    next
}

// The sooner of two minutes, where the first comes after another one.
fn sooner(minute: u16, event: u16, next: u16) -> u16
    requires { minute < next }
    ensures later { minute < result }
    ensures no_later { result ≤ next }
    ensures past { minute < event → result ≤ event }
{
    if minute < event && event < next {
        event
    } else {
        next
    }
}

// The minute in which a pair's aircraft becomes ready at a station, where it weighs something.
fn comes_in<F: Flights>(tables: &Tables, flights: &F, station: u32, pair: Pair) -> u16
    requires fit { F.fit tables.now flights.now }
    requires pair { IsPair tables.now pair }
    ensures { result ≡ comes_in tables.now (F.flights tables.now flights.now).weight station pair }
{
    if tables.leg(pair.leg).to == station && flights.weight(tables, pair) != 0 {
        tables.ready(pair)
    } else {
        tables.period()
    }
}

// The minute in which a pair departs from a station, where it weighs something.
fn leaves_in<F: Flights>(tables: &Tables, flights: &F, station: u32, pair: Pair) -> u16
    requires fit { F.fit tables.now flights.now }
    requires pair { IsPair tables.now pair }
    ensures { result ≡ leaves_in tables.now (F.flights tables.now flights.now).weight station pair }
{
    if tables.leg(pair.leg).from == station && flights.weight(tables, pair) != 0 {
        tables.departure(pair)
    } else {
        tables.period()
    }
}

// Puts a minute behind those so far, where it is one.
fn push_where(minutes: &mut Vec<u16>, minute: u16, is_one: bool) -> Result<(), NoMemory>
    ensures { OnOk result (minutes.new.items ≡ minutes.old.items ++ (if is_one then minute ∷ [] else [])) }
{
    if is_one {
        minutes.push(minute)?;
    }
    Ok(())
}
