ghost use Rattle.std.specs.Prelude.{◌≡◌, ◌<◌, ◌≤◌, ℕ, length, IfOk, MatchOption};
ghost use Rattle.fleet_model.specs.Schedule.{stations_in};
ghost use Rattle.node_aggregate.specs.Nodes.{AreNodes, HappensAt, IsDayStart, IsFirst, IsFirstMinute, IsNextStart, MayFollow, MayStart, RiseFromZero, days_at, sooner};

use crate::timeline_net::Event;
use entries::NoMemory;
use fleet_model::Tables;
use fleet_model::period::{day_of_minute, minutes_of};
use std::alloc::Global;

/// How many days cut the nodes of a station: all of the period where only so many aircraft may stand at a day's end, else the
/// first alone.
pub fn days_at(tables: &Tables, station: u32) -> u32
    requires { station < stations_in tables.now }
    ensures value { result ≡ days_at tables.now station }
    ensures week { result ≤ 7 }
{
    if tables.parking(station).is_some() {
        tables.day_count()
    } else {
        1
    }
}

/// The minutes at which the nodes of these events start, where so many days cut them. The first starts at the period's first
/// minute, and another at each ready minute that is later than a departure since the start of the node before, and at the
/// start of each of the days. A node reaches to the minute before the next start, the last one to the end of the period.
/// Without events there is no node.
///
/// It looks at each event twice a node.
pub fn nodes(alloc: Global, events: &[Event], days: u32) -> Result<Vec<u16>, NoMemory>
    requires { days ≤ 7 }
    ensures nodes { IfOk result (λ starts. AreNodes events.now days starts.items) }
    ensures rising { IfOk result (λ starts. 0 < length starts.items → RiseFromZero starts.items) }
{
    let mut starts = Vec::new(alloc);
    if events.is_empty() {
        return Ok(starts);
    }
    let mut start = 0;
    starts.push(start)?;
    while let Some(next) = next_start(events, days, start) {
        starts.push(next)?;
        start = next;
    }
    Ok(starts)
}

// The start of the node after the one with this start.
fn next_start(events: &[Event], days: u32, start: u16) -> Option<u16>
    requires { days ≤ 7 }
    ensures { MatchOption result ((m : ℕ) → ¬ (MayFollow events.now days start m)) (IsNextStart events.now days start) }
{
    let ready = next_ready(events, start);
    match next_day(days, start) {
        Some(day) => Some(sooner(&ready, day)),
        None => ready,
    }
}

// The first start of one of the days after a minute.
fn next_day(days: u32, start: u16) -> Option<u16>
    requires { days ≤ 7 }
    ensures { MatchOption result ((m : ℕ) → ¬ (IsDayStart days start m)) (IsFirst (IsDayStart days start)) }
{
    let day = day_of_minute(start) + 1;
    if u32::from(day) < days {
        Some(minutes_of(day))
    } else {
        None
    }
}

// The first ready minute that is later than a departure since the start of a node.
fn next_ready(events: &[Event], start: u16) -> Option<u16>
    ensures { MatchOption result ((m : ℕ) → ¬ (MayStart events.now start m)) (IsFirst (MayStart events.now start)) }
{
    let departure = first_minute(events, false, u32::from(start))?;
    first_minute(events, true, u32::from(departure) + 1)
}

// The first minute from one on at which an aircraft is ready, or at which one departs.
fn first_minute(events: &[Event], ready: bool, from: u32) -> Option<u16>
    ensures { MatchOption result ((m : ℕ) → from ≤ m → ¬ (HappensAt events.now ready m)) (IsFirstMinute events.now ready from) }
{
    let mut first = None;
    for event in events {
        if event.ready == ready && u32::from(event.minute) >= from {
            first = Some(sooner(&first, event.minute));
        }
    }
    first
}

// The sooner of a minute, where there is one, and another.
fn sooner(minute: &Option<u16>, other: u16) -> u16
    ensures { result ≡ sooner minute.now other }
{
    match minute {
        Some(minute) if *minute <= other => *minute,
        _ => other,
    }
}
