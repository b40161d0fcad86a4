//! Idle minutes, found in their list.
ghost use Rattle.std.specs.Prelude.{◌≡◌, ◌≤◌, ℕ, Contains, MatchOption};
ghost use Rattle.node_aggregate.specs.island_cut.Islands.{idle_at};
ghost use Rattle.node_aggregate.specs.island_cut.Lookup.{IdlesRise, IsFirstIdle, IsPartingIdles, idle_before};

use crate::island_cut::idle_minutes::Idle;

/// The first idle minute of a station from a minute on, in a list by station, then minute, as `idle` gives it. Found by
/// bisection; takes no memory.
pub fn first_idle(idles: &[Idle], station: u32, from: u16) -> Option<u16>
    requires { IdlesRise idles.now }
    ensures { MatchOption result ((m : ℕ) → from ≤ m → ¬ (Contains idles.now (idle_at station m))) (IsFirstIdle idles.now station from) }
{
    let place = parting(idles, station, from);
    let entry = idles.get(place)?;
    (entry.station == station).then_some(entry.minute)
}

// How many entries come before a minute of a station.
fn parting(idles: &[Idle], station: u32, minute: u16) -> usize
    requires { IdlesRise idles.now }
    ensures { IsPartingIdles idles.now station minute result }
{
    idles.partition_point(|entry| comes_before(entry, station, minute))
}

// Whether an entry comes before a minute of a station.
fn comes_before(entry: &Idle, station: u32, minute: u16) -> bool
    ensures { result ≡ idle_before entry.now station minute }
{
    entry.station < station || entry.station == station && entry.minute < minute
}
