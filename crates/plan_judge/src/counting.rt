//! Need and use of a fleet by an assignment.
ghost use Rattle.std.specs.Prelude.{◌≡◌, ◌<◌, ◌≤◌};
ghost use Rattle.fleet_model.specs.Counts.{weights_of};
ghost use Rattle.fleet_model.specs.Legal.{IsAssignment};
ghost use Rattle.fleet_model.specs.Schedule.{fleets_in, legs_in};
ghost use Rattle.fleet_model.specs.Use.{need_of, used_of};

use fleet_model::{Assignment, Tables};
use stand_counts::Planned;

/// The aircraft of a fleet that must be at a station at the start of the period, so that none is ever lacking there.
/// Takes no memory.
#[tactic(auto, using(stand_counts::proofs::PlanCounts::need_of_plan))]
pub fn need(tables: &Tables, plan: &Assignment, fleet: u32, station: u32) -> u32
    requires plan { IsAssignment tables.now plan.now }
    requires fleet { fleet < fleets_in tables.now }
    ensures value { result ≡ need_of tables.now (weights_of plan.now) fleet station }
    ensures few { result ≤ legs_in tables.now }
{
    stand_counts::need(tables, &Planned { plan, fleet }, station) as u32
}

/// The aircraft that a fleet uses: its need at all stations, and its laps, which are the aircraft aloft or in
/// their turn at the start of the period. Takes no memory.
#[tactic(auto, using(stand_counts::proofs::PlanCounts::use_of_plan))]
pub fn used(tables: &Tables, plan: &Assignment, fleet: u32) -> u32
    requires plan { IsAssignment tables.now plan.now }
    requires fleet { fleet < fleets_in tables.now }
    ensures { result ≡ used_of tables.now (weights_of plan.now) fleet }
{
    stand_counts::used(tables, &Planned { plan, fleet }) as u32
}
