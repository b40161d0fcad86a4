//! The moments of ground arcs.
ghost use Rattle.std.specs.Prelude.{◌≡◌, ◌<◌, ◌≤◌, ◌+◌, ◌&&◌, ℕ, Bool, IfOk, if◌then◌else◌, nat_lt, length, slice_index};
ghost use Rattle.fleet_model.specs.Kept.{Domains, kept_by};
ghost use Rattle.fleet_model.specs.Schedule.{fleets_in, period_of, stations_in};
ghost use Rattle.node_aggregate.specs.island_cut.Lookup.{IdlesRise};
ghost use Rattle.node_aggregate.specs.Nodes.{AreNodesAt, end_in};
ghost use Rattle.node_aggregate.specs.timeline_net.Events.{AreEvents};
ghost use Rattle.node_aggregate.specs.EventMinutes.{IsFirstAmong, IsLastAmong, IsLater, IsSooner, ListsAt, is_within, minute_at};
ghost use Rattle.node_aggregate.specs.KeptIdles.{AreIdleIn};
ghost use Rattle.node_aggregate.specs.Moments.{first_minute, moment_of, moments_of};

use crate::island_cut::{Idle, first_idle};
use crate::places::node_end;
use crate::timeline_net::{Event, events};
use entries::{Entries, NoMemory};
use fleet_model::{Kept, Tables};
use std::alloc::Global;

/// The moment of each ground arc of a fleet at a station, in the order of its nodes: the first minute of the arc's wait at
/// which the station is empty in every mixed plan of the subproblem; none where there is none, and the arc stays. The nodes
/// are given by their starts, and the subproblem's idle minutes as `idle_minutes` answers them.
///
/// It looks at each event twice a node.
pub fn moments(
    alloc: Global,
    tables: &Tables,
    kept: &Kept,
    fleet: u32,
    station: u32,
    starts: &[u16],
    idle: &[Idle],
) -> Result<Entries<Option<u16>>, NoMemory>
    requires fleet { fleet < fleets_in tables.now }
    requires station { station < stations_in tables.now }
    requires nodes { AreNodesAt tables.now (kept_by kept.now) fleet station starts.now }
    requires idle { AreIdleIn tables.now (kept_by kept.now) idle.now }
    ensures { IfOk result (λ moments. moments ≡ moments_of tables.now (kept_by kept.now) fleet station starts.now) }
{
    let happening = events(alloc, tables, kept, fleet, station)?;
    let mut moments = Vec::new(alloc);
    for place in 0..starts.len() {
        moments.push(moment(tables, &happening, starts, place, station, idle))?;
    }
    Ok(Entries::from_vec(moments))
}

// The moment of a node's arc: in the node after its last event, or else, of the last node, before the first event.
fn moment(
    tables: &Tables,
    events: &[Event],
    starts: &[u16],
    place: usize,
    station: u32,
    idle: &[Idle],
) -> Option<u16>
    requires place { place < length starts.now }
    requires end { end_in tables.now starts.now place < period_of tables.now }
    requires rise { IdlesRise idle.now }
    ensures { (keeps : Domains) (f : ℕ) → station < stations_in tables.now → AreEvents tables.now keeps f station events.now → AreIdleIn tables.now keeps idle.now
        → result ≡ moment_of tables.now keeps f station starts.now place }
{
    let until = node_end(tables, starts, place) + 1;
    let from = last_event(events, starts[place], until);
    let inside = first_within(idle, station, from, until);
    if inside.is_some() || place + 1 < starts.len() {
        return inside;
    }
    first_within(idle, station, 0, first_event(tables, events))
}

// The last event's minute before a minute, or the start where none is later.
fn last_event(events: &[Event], start: u16, until: u16) -> u16
    ensures { IsLastAmong events.now start until (length events.now) result }
{
    let mut last = start;
    for place in 0..events.len() {
        last = later(last, minute_at(events, place), until);
    }
    last
}

// The later of two minutes, the second only where it is before an end.
fn later(last: u16, minute: u16, until: u16) -> u16
    ensures { IsLater last minute until result }
{
    if minute < until && minute > last {
        minute
    } else {
        last
    }
}

// The first event's minute, or the end of the period where there is none.
fn first_event(tables: &Tables, events: &[Event]) -> u16
    ensures { IsFirstAmong (period_of tables.now) events.now (length events.now) result }
{
    let mut first = tables.period();
    for place in 0..events.len() {
        first = sooner(first, minute_at(events, place));
    }
    first
}

// The sooner of two minutes.
fn sooner(first: u16, minute: u16) -> u16
    ensures { IsSooner first minute result }
{
    if minute < first { minute } else { first }
}

// An event's minute.
fn minute_at(events: &[Event], place: usize) -> u16
    requires { place < length events.now }
    ensures { result ≡ minute_at events.now place }
{
    events[place].minute
}

// The first idle minute of a station from a minute on and before another.
fn first_within(idle: &[Idle], station: u32, from: u16, until: u16) -> Option<u16>
    requires { IdlesRise idle.now }
    ensures { (period : ℕ) (test : ℕ → Bool) → until ≤ period → ListsAt period idle.now station test → result ≡ first_minute period (λ m. is_within from until m && test m) }
{
    let minute = first_idle(idle, station, from)?;
    (minute < until).then_some(minute)
}
