//! Where more aircraft stand at the end of a day than may.
ghost use Rattle.std.specs.Prelude.{◌≡◌, ◌<◌, ◌≤◌, ◌*◌, MatchOption};
ghost use Rattle.fleet_model.specs.Counts.{weights_of};
ghost use Rattle.fleet_model.specs.Legal.{HasRoom, IsAssignment};
ghost use Rattle.fleet_model.specs.Schedule.{fleets_in, stations_in};
ghost use Rattle.fleet_model.specs.Use.{parked, stand_of};
ghost use Rattle.plan_judge.specs.Crowds.{HasRoomAt, IsFirstCrowded, IsFirstDay};

use fleet_model::period::day_end;
use fleet_model::{Assignment, Tables};
use stand_counts::{Planned, need, stand};

/// A station at which more aircraft stand at the end of a day than may, days counted from 1.
#[derive(Clone, Copy)]
pub(crate) struct Crowd {
    pub station: u32,
    pub day: u32,
    pub parked: u32,
    pub cap: u32,
}

/// The first station, and there the first day, at whose end more aircraft stand than may.
pub(crate) fn first_crowded(tables: &Tables, plan: &Assignment) -> Option<Crowd>
    requires { IsAssignment tables.now plan.now }
    ensures { MatchOption result (HasRoom tables.now 1 (weights_of plan.now)) (IsFirstCrowded tables.now plan.now) }
{
    for station in 0..tables.station_count() {
        if let Some(cap) = tables.parking(station) {
            if let Some(found) = first_at(tables, plan, station, cap) {
                return Some(found);
            }
        }
    }
    None
}

/// The first day at whose end more than so many aircraft stand at a station.
fn first_at(tables: &Tables, plan: &Assignment, station: u32, cap: u32) -> Option<Crowd>
    requires plan { IsAssignment tables.now plan.now }
    requires station { station < stations_in tables.now }
    ensures { MatchOption result (HasRoomAt tables.now plan.now station cap) (IsFirstDay tables.now plan.now station cap) }
{
    for before in 0..tables.day_count() {
        let day = before + 1;
        let parked = parked(tables, plan, station, day);
        if parked > cap {
            return Some(Crowd {
                station,
                day,
                parked,
                cap,
            });
        }
    }
    None
}

/// The aircraft of all fleets at a station at the end of a day; a period has seven at most.
#[tactic(auto, unfolding(fleet_model::specs::Use::parked))]
fn parked(tables: &Tables, plan: &Assignment, station: u32, day: u32) -> u32
    requires plan { IsAssignment tables.now plan.now }
    requires some { 0 < day }
    requires week { day ≤ 7 }
    ensures { result ≡ parked tables.now (weights_of plan.now) station day }
{
    let minute = day_end(day);
    let mut sum = 0;
    for fleet in 0..tables.fleet_count() {
        sum += standing(tables, plan, fleet, station, minute);
    }
    sum
}

/// The aircraft of a fleet on the ground at a station at the end of a minute.
#[tactic(auto, using(stand_counts::proofs::PlanCounts::stand_of_plan))]
fn standing(tables: &Tables, plan: &Assignment, fleet: u32, station: u32, minute: u16) -> u32
    requires plan { IsAssignment tables.now plan.now }
    requires fleet { fleet < fleets_in tables.now }
    ensures value { result ≡ stand_of tables.now (weights_of plan.now) fleet station minute }
    ensures few { result ≤ 2000 }
{
    let flights = Planned { plan, fleet };
    let need = need(tables, &flights, station);
    stand(tables, &flights, station, minute, need) as u32
}
