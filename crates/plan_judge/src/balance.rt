//! Where an assignment does not balance.
ghost use Rattle.std.specs.Prelude.{◌<◌, ℕ, MatchOption};
ghost use Rattle.fleet_model.specs.Counts.{weights_of};
ghost use Rattle.fleet_model.specs.Legal.{IsAssignment};
ghost use Rattle.fleet_model.specs.Schedule.{fleets_in, stations_in};
ghost use Rattle.fleet_model.specs.Use.{IsBalanced};
ghost use Rattle.plan_judge.specs.Verdicts.{Balances};
ghost use Rattle.plan_judge.specs.Firsts.{FirstAtFleet, IsFirstUnbalanced};

use fleet_model::{Assignment, Tables};
use stand_counts::{Planned, arrivals, departures};

/// A fleet and a station at which as many aircraft do not come as leave.
#[derive(Clone, Copy)]
pub(crate) struct Imbalance {
    pub fleet: u32,
    pub station: u32,
    pub came: u32,
    pub left: u32,
}

/// The first fleet, and there the first station, that does not balance.
pub(crate) fn first_unbalanced(tables: &Tables, plan: &Assignment) -> Option<Imbalance>
    requires { IsAssignment tables.now plan.now }
    ensures { MatchOption result (IsBalanced tables.now (weights_of plan.now)) (IsFirstUnbalanced tables.now plan.now) }
{
    for fleet in 0..tables.fleet_count() {
        if let Some(found) = first_at(tables, plan, fleet) {
            return Some(found);
        }
    }
    None
}

/// The first station at which a fleet does not balance.
#[tactic(auto, using(stand_counts::proofs::PlanCounts::arrivals_of_plan, stand_counts::proofs::PlanCounts::departures_of_plan))]
fn first_at(tables: &Tables, plan: &Assignment, fleet: u32) -> Option<Imbalance>
    requires plan { IsAssignment tables.now plan.now }
    requires fleet { fleet < fleets_in tables.now }
    ensures { MatchOption result ((s : ℕ) → s < stations_in tables.now → Balances tables.now plan.now fleet s) (FirstAtFleet tables.now plan.now fleet) }
{
    let flights = Planned { plan, fleet };
    let last = tables.period() - 1;
    for station in 0..tables.station_count() {
        let came = arrivals(tables, &flights, station, last) as u32;
        let left = departures(tables, &flights, station, last) as u32;
        if came != left {
            return Some(Imbalance {
                fleet,
                station,
                came,
                left,
            });
        }
    }
    None
}
