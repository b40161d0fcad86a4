//! How long the aircraft of each landing can wait in a clean turn.
ghost use Rattle.std.specs.Prelude.{◌≡◌, ◌<◌, ◌≤◌, ◌^◌, ℕ, length, slice_index, All, IfOk};
ghost use Rattle.sums.specs.Places.{list_below};
ghost use Rattle.fleet_model.specs.Counts.{weights_of};
ghost use Rattle.fleet_model.specs.Legal.{IsAssignment};
ghost use Rattle.fleet_model.specs.Schedule.{fleets_in, legs_in, stations_in};
ghost use Rattle.lines_of_flying.specs.ground_turns.Turns.{minutes_round};
ghost use Rattle.node_aggregate.specs.island_cut.Zeros.{zeros_of};
ghost use Rattle.plan_rotations.specs.through_flights.Waits.{AreLongestWaits, IsLongestWait};

use entries::{Entries, NoMemory};
use fleet_model::{Assignment, Tables};
use lines_of_flying::ground_turns::{flight, minutes_until};
use node_aggregate::island_cut::zero_minutes;
use std::alloc::Global;

/// For each leg the longest wait of a clean turn from it, in minutes.
pub fn longest_waits(
    alloc: Global,
    tables: &Tables,
    plan: &Assignment,
    fleet: u32,
) -> Result<Entries<u16>, NoMemory>
    requires plan { IsAssignment tables.now plan.now }
    requires fleet { fleet < fleets_in tables.now }
    ensures { IfOk result (AreLongestWaits tables.now plan.now fleet) }
{
    let zeros = all_zero_minutes(alloc, tables, plan, fleet)?;
    let period = tables.period();
    let mut longest = Vec::new(alloc);
    for leg in 0..tables.leg_count() {
        let station = tables.leg(leg).to as usize;
        let ready = tables.ready(flight(tables, leg, fleet));
        longest.push(longest_wait(period, ready, zeros[station].as_slice()))?;
    }
    Ok(Entries::from_vec(longest))
}

/// For each station the minutes at whose end no aircraft of the fleet stands there.
fn all_zero_minutes(
    alloc: Global,
    tables: &Tables,
    plan: &Assignment,
    fleet: u32,
) -> Result<Vec<Entries<u16>>, NoMemory>
    requires plan { IsAssignment tables.now plan.now }
    requires fleet { fleet < fleets_in tables.now }
    ensures { IfOk result (λ all. all.items ≡ list_below (zeros_of tables.now (weights_of plan.now) fleet) (stations_in tables.now)) }
{
    let mut all = Vec::new(alloc);
    for station in 0..tables.station_count() {
        all.push(zero_minutes(alloc, tables, plan, fleet, station)?)?;
    }
    Ok(all)
}

/// The longest wait from a ready minute that ends before the end of the first of some minutes, going round in a period of
/// so many.
fn longest_wait(period: u16, ready: u16, zeros: &[u16]) -> u16
    requires period { period ≤ 2 ^ 15 }
    requires ready { ready < period }
    requires zeros { All (λ zero. zero < period) zeros.now }
    ensures no_more { (k : ℕ) → k < length zeros.now → result ≤ minutes_round period ready (slice_index zeros.now k) }
    ensures all { (wait : ℕ) → wait < period → ((k : ℕ) → k < length zeros.now → wait ≤ minutes_round period ready (slice_index zeros.now k)) → wait ≤ result }
{
    let mut longest = period - 1;
    for zero in zeros {
        let until = minutes_until(period, ready, *zero);
        if until < longest {
            longest = until;
        }
    }
    longest
}
