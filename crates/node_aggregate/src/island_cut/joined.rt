//! The joined schedule: all legs on one fleet, which flies each as fast as any fleet that may.
ghost use Rattle.std.specs.Prelude.{◌≡◌, ◌+◌, ◌<◌, ◌≤◌, ⊤, MatchBool};
ghost use Rattle.fleet_model.specs.Counts.{choice_at};
ghost use Rattle.fleet_model.specs.Schedule.{fleets_in, legs_in};
ghost use Rattle.node_aggregate.specs.island_cut.Islands.{have_pairs};
ghost use Rattle.node_aggregate.specs.island_cut.Spare.{AreFleetsOf, AreQuickest, HavePairs, IsBest, IsQuickest, joined_flights};

use fleet_model::{Assignment, Pair, Tables};
use stand_counts::Flights;

/// All legs as one fleet's, each at its own time and as fast as by a fleet that is given.
#[derive(Clone, Copy)]
pub(crate) struct Joined<'a> {
    pub plan: &'a Assignment,
}

impl Flights for Joined<'_> {
    ghost flights = { λ t it. joined_flights t (choice_at it.plan.now) };

    ghost fit = { λ t it. AreFleetsOf t it.plan.now };

    ghost most = { 1 };

    fn count(&self, tables: &Tables) -> u32 {
        tables.leg_count()
    }

    fn pair(&self, tables: &Tables, leg: u32) -> Pair {
        tables.own_pair(leg, self.plan.choice(leg))
    }

    fn weight(&self, _tables: &Tables, _pair: Pair) -> u128 {
        1
    }
}

/// For each leg a fleet that may fly it and is busy with it no longer than any that may. Takes no memory.
pub(crate) fn quickest(tables: &Tables) -> Assignment
    requires { HavePairs tables.now }
    ensures fleets { AreFleetsOf tables.now result }
    ensures quickest { AreQuickest tables.now (choice_at result) }
{
    let mut plan = Assignment::empty();
    for leg in 0..tables.leg_count() {
        plan.push(quickest_on(tables, leg));
    }
    plan
}

// A fleet that may fly a leg, and is busy with it no longer than any that may.
fn quickest_on(tables: &Tables, leg: u32) -> u32
    requires leg { leg < legs_in tables.now }
    requires pairs { HavePairs tables.now }
    ensures { IsQuickest tables.now leg (fleets_in tables.now) result }
{
    best_on(tables, leg).unwrap()
}

// The same, and none where no fleet may fly the leg.
fn best_on(tables: &Tables, leg: u32) -> Option<u32>
    requires { leg < legs_in tables.now }
    ensures { IsBest tables.now leg (fleets_in tables.now) result }
{
    let mut best = None;
    for fleet in 0..tables.fleet_count() {
        best = quicker(tables, leg, fleet, best);
    }
    best
}

/// Whether some fleet may fly each leg. Takes no memory.
pub fn have_pairs(tables: &Tables) -> bool
    ensures value { result ≡ have_pairs tables.now }
    ensures pairs { MatchBool result (HavePairs tables.now) ⊤ }
{
    for leg in 0..tables.leg_count() {
        if best_on(tables, leg).is_none() {
            return false;
        }
    }
    true
}

// The quickest of the first fleets that may fly a leg, with one fleet more.
fn quicker(tables: &Tables, leg: u32, fleet: u32, best: Option<u32>) -> Option<u32>
    requires leg { leg < legs_in tables.now }
    requires fleet { fleet < fleets_in tables.now }
    requires best { IsBest tables.now leg fleet best }
    ensures { IsBest tables.now leg (fleet + 1) result }
{
    let pair = tables.own_pair(leg, fleet);
    if tables.cost(pair).is_none() {
        return best;
    }
    match best {
        Some(other) if tables.busy(tables.own_pair(leg, other)) <= tables.busy(pair) => Some(other),
        Some(_) | None => Some(fleet),
    }
}
