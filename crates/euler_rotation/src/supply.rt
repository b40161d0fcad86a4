//! The nights of a fleet, and those at maintenance stations.
ghost use Rattle.std.specs.Prelude.{◌≡◌, ◌*◌, ◌<◌, ◌≤◌, MatchOption};
ghost use Rattle.fleet_model.specs.Counts.{weights_of};
ghost use Rattle.fleet_model.specs.Schedule.{stations_in};
ghost use Rattle.fleet_model.specs.Use.{stand_of};
ghost use Rattle.lines_of_flying.specs.ground_turns.Laws.{maintained_at, stands_by_day};
ghost use Rattle.lines_of_flying.specs.cycle_join.Joins.{Flies};
ghost use Rattle.euler_rotation.specs.Answers.{IsUnused};
ghost use Rattle.euler_rotation.specs.Asked.{IsAsked};
ghost use Rattle.euler_rotation.specs.Tours.{nights_maintained, nights_used};

use crate::asked::Asked;
use fleet_model::period::day_end;
use stand_counts::{Planned, need, stand, used};

/// A leg of the fleet. Takes no memory.
pub(crate) fn first_leg(asked: &Asked<'_>) -> Option<u32>
    requires { IsAsked asked.now }
    ensures { MatchOption result (IsUnused asked.now.tables.now asked.now.plan.now asked.now.fleet) (Flies asked.now.tables.now asked.now.plan.now asked.now.fleet) }
{
    for leg in 0..asked.tables.leg_count() {
        if asked.plan.choice(leg) == asked.fleet {
            return Some(leg);
        }
    }
    None
}

/// The nights of each fitting map. Takes no memory.
#[tactic(auto, using(stand_counts::proofs::PlanCounts::use_of_plan))]
pub(crate) fn nights_used(asked: &Asked<'_>) -> u32
    requires { IsAsked asked.now }
    ensures { result ≡ nights_used asked.now.tables.now asked.now.plan.now asked.now.fleet }
{
    let flights = Planned {
        plan: asked.plan,
        fleet: asked.fleet,
    };
    used(asked.tables, &flights) as u32 * asked.tables.day_count()
}

/// The nights of each fitting map at maintenance stations: what stands there at the ends of the period's days. Takes no
/// memory.
pub(crate) fn nights_maintained(asked: &Asked<'_>) -> u32
    requires { IsAsked asked.now }
    ensures value { result ≡ nights_maintained asked.now.tables.now asked.now.plan.now asked.now.fleet }
    ensures few { result ≤ 2800000 }
{
    let mut nights = 0;
    for station in 0..asked.tables.station_count() {
        nights += maintained_at(asked, station);
    }
    nights
}

// Those at a station.
fn maintained_at(asked: &Asked<'_>, station: u32) -> u32
    requires asked { IsAsked asked.now }
    requires station { station < stations_in asked.now.tables.now }
    ensures value { result ≡ maintained_at asked.now.tables.now asked.now.plan.now asked.now.fleet station }
    ensures few { result ≤ 14000 }
{
    if asked.tables.station(station).maintenance {
        stands_by_day(asked, station)
    } else {
        0
    }
}

// What stands at a station at the ends of the period's days, added up.
fn stands_by_day(asked: &Asked<'_>, station: u32) -> u32
    requires { IsAsked asked.now }
    ensures value { result ≡ stands_by_day asked.now.tables.now asked.now.plan.now asked.now.fleet station }
    ensures few { result ≤ 14000 }
{
    let mut stands = 0;
    for day in 0..asked.tables.day_count() {
        stands += stand_at(asked, station, day_end(day + 1));
    }
    stands
}

// What stands at a station at the end of a minute.
#[tactic(auto, using(stand_counts::proofs::PlanCounts::stand_of_plan))]
fn stand_at(asked: &Asked<'_>, station: u32, minute: u16) -> u32
    requires { IsAsked asked.now }
    ensures value { result ≡ stand_of asked.now.tables.now (weights_of asked.now.plan.now) asked.now.fleet station minute }
    ensures few { result ≤ 2000 }
{
    let flights = Planned {
        plan: asked.plan,
        fleet: asked.fleet,
    };
    let need = need(asked.tables, &flights, station);
    stand(asked.tables, &flights, station, minute, need) as u32
}
