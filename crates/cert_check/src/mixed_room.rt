//! Whether a fractional assignment has room at the end of each day.
ghost use Rattle.std.specs.Prelude.{◌≡◌, ◌*◌, ◌<◌, ◌≤◌, MatchBool};
ghost use Rattle.fleet_model.specs.Legal.{HasRoom};
ghost use Rattle.fleet_model.specs.Schedule.{fleets_in, stations_in};
ghost use Rattle.fleet_model.specs.Use.{parked, stand_of};
ghost use Rattle.fleet_model.specs.declared.limits.TheConstants.{MAX_DEPARTURES};
ghost use Rattle.dual_bound.specs.Fractions.{AreMixedParts, parts_in, parts_of_leg};
ghost use Rattle.dual_bound.specs.Prices.{max_scale};
ghost use Rattle.cert_check.specs.MixedRules.{HasMixedRoomAt};

use crate::mixed_counts::{Parted, leg_parts};
use dual_bound::WeightFinder;
use fleet_model::Tables;
use fleet_model::period::day_end;
use stand_counts::{need, stand};

/// Whether at each station with a limit no more aircraft stand at the end of a day than may, so many parts each. Takes no
/// memory.
pub(crate) fn has_room(tables: &Tables, mixed: &WeightFinder<'_>) -> bool
    requires { AreMixedParts tables.now mixed.now }
    ensures { MatchBool result (HasRoom tables.now (parts_of_leg mixed.now) (parts_in mixed.now)) (¬ (HasRoom tables.now (parts_of_leg mixed.now) (parts_in mixed.now))) }
{
    for station in 0..tables.station_count() {
        if let Some(limit) = tables.parking(station) {
            let most = leg_parts(tables, mixed) * u128::from(limit);
            if !has_room_at(tables, mixed, station, most) {
                return false;
            }
        }
    }
    true
}

// Whether no more than so many parts of aircraft stand at a station at the end of a day.
fn has_room_at(tables: &Tables, mixed: &WeightFinder<'_>, station: u32, most: u128) -> bool
    requires parts { AreMixedParts tables.now mixed.now }
    requires station { station < stations_in tables.now }
    ensures { MatchBool result (HasMixedRoomAt tables.now mixed.now station most) (¬ (HasMixedRoomAt tables.now mixed.now station most)) }
{
    for before in 0..tables.day_count() {
        if parked(tables, mixed, station, before + 1) > most {
            return false;
        }
    }
    true
}

// The aircraft of all fleets at a station at the end of a day, in parts; a period has seven days at most.
#[tactic(auto, unfolding(fleet_model::specs::Use::parked))]
fn parked(tables: &Tables, mixed: &WeightFinder<'_>, station: u32, day: u32) -> u128
    requires parts { AreMixedParts tables.now mixed.now }
    requires some { 0 < day }
    requires week { day ≤ 7 }
    ensures { result ≡ parked tables.now (parts_in mixed.now) station day }
{
    let minute = day_end(day);
    let mut sum = 0;
    for fleet in 0..tables.fleet_count() {
        sum += standing(tables, mixed, fleet, station, minute);
    }
    sum
}

// The aircraft of a fleet on the ground at a station at the end of a minute, in parts.
#[tactic(auto, using(stand_counts::proofs::FleetCounts::stand_of_fleet))]
fn standing(
    tables: &Tables,
    mixed: &WeightFinder<'_>,
    fleet: u32,
    station: u32,
    minute: u16,
) -> u128
    requires parts { AreMixedParts tables.now mixed.now }
    requires fleet { fleet < fleets_in tables.now }
    ensures value { result ≡ stand_of tables.now (parts_in mixed.now) fleet station minute }
    ensures few { result ≤ 2 * max_scale * MAX_DEPARTURES }
{
    let flights = Parted { mixed, fleet };
    let need = need(tables, &flights, station);
    stand(tables, &flights, station, minute, need)
}
