//! The leg that follows a leg.
ghost use Rattle.std.specs.Prelude.{◌≡◌, ◌≢◌, ◌<◌, true, MatchOption};
ghost use Rattle.fleet_model.specs.Counts.{choice_at};
ghost use Rattle.fleet_model.specs.Schedule.{legs_in};
ghost use Rattle.lines_of_flying.specs.ground_turns.Maps.{HasTurn, IsHeldByMap, arrivals_of};
ghost use Rattle.lines_of_flying.specs.Following.{Follows, IsFirstOutNext, next_place};
ghost use Rattle.lines_of_flying.specs.Grounds.{ArePlaces, IsGround};

use crate::free::{landings, moves_free, place_of};
use crate::ground::{Ground, Movement};
use crate::places::Places;
use fleet_model::Connection;

/// The leg that follows a leg of the fleet: its partner where a given pair has one, else the one that departs first in,
/// first out.
pub(crate) fn follower(ground: &Ground<'_>, places: &Places, leg: u32) -> u32
    requires ground { IsGround ground.now }
    requires places { ArePlaces ground.now places.now }
    requires held { IsHeldByMap ground.now.tables.now ground.now.plan.now ground.now.fleet ground.now.pairs.now }
    requires leg { leg < legs_in ground.now.tables.now }
    requires flies { choice_at ground.now.plan.now leg ≡ ground.now.fleet }
    ensures { Follows ground.now.tables.now ground.now.plan.now ground.now.fleet ground.now.pairs.now leg result }
{
    match partner(ground.pairs, leg) {
        Some(departing) => departing,
        None => first_out(ground, places, leg),
    }
}

// The leg that departs in a pair in which a leg arrives.
fn partner(pairs: &[Connection], leg: u32) -> Option<u32>
    ensures { MatchOption result (arrivals_of pairs.now leg ≡ 0) (λ q. HasTurn pairs.now (record { arriving = leg; departing = q })) }
{
    for pair in pairs {
        if pair.arriving == leg {
            return Some(pair.departing);
        }
    }
    None
}

// The place of the departure that follows a free landing.
#[tactic(auto, unfolding(crate::specs::Following::next_place))]
fn next_place(ground: &Ground<'_>, places: &Places, leg: u32) -> u32
    requires ground { IsGround ground.now }
    requires places { ArePlaces ground.now places.now }
    requires held { IsHeldByMap ground.now.tables.now ground.now.plan.now ground.now.fleet ground.now.pairs.now }
    requires leg { leg < legs_in ground.now.tables.now }
    requires flies { choice_at ground.now.plan.now leg ≡ ground.now.fleet }
    requires free { arrivals_of ground.now.pairs.now leg ≡ 0 }
    ensures { result ≡ next_place ground.now.tables.now ground.now.plan.now ground.now.fleet ground.now.pairs.now leg }
{
    let station = ground.tables.leg(leg).to;
    (place_of(ground, Movement::Landing, leg) + places.needs[station as usize])
        % landings(ground, station)
}

// The leg that departs first in, first out after a free landing.
fn first_out(ground: &Ground<'_>, places: &Places, leg: u32) -> u32
    requires ground { IsGround ground.now }
    requires places { ArePlaces ground.now places.now }
    requires held { IsHeldByMap ground.now.tables.now ground.now.plan.now ground.now.fleet ground.now.pairs.now }
    requires leg { leg < legs_in ground.now.tables.now }
    requires flies { choice_at ground.now.plan.now leg ≡ ground.now.fleet }
    requires free { arrivals_of ground.now.pairs.now leg ≡ 0 }
    ensures { IsFirstOutNext ground.now.tables.now ground.now.plan.now ground.now.fleet ground.now.pairs.now leg result }
{
    let station = ground.tables.leg(leg).to;
    let place = next_place(ground, places, leg);
    for other in 0..ground.tables.leg_count() {
        if moves_free(ground, Movement::Departure, station, other)
            && places.departures[other as usize] == place
        {
            return other;
        }
    }
    unreachable!()
}
