//! Free landings and free departures at a station: those that no given pair has.
ghost use Rattle.std.specs.Prelude.{◌≡◌, ◌<◌, ◌≤◌};
ghost use Rattle.fleet_model.specs.Schedule.{legs_in};
ghost use Rattle.lines_of_flying.specs.ground_turns.FirstOut.{is_before};
ghost use Rattle.lines_of_flying.specs.Grounds.{IsGround, landings_at};
ghost use Rattle.lines_of_flying.specs.Moves.{is_ahead, moves_free, minute_of, place_of};

use crate::ground::{Ground, Movement, is_unpaired, minute_of, moves_at};

/// Whether a leg of the fleet lands at a station or departs from there, and no given pair says what follows or comes before.
pub(crate) fn moves_free(ground: &Ground<'_>, movement: Movement, station: u32, leg: u32) -> bool
    requires ground { IsGround ground.now }
    requires leg { leg < legs_in ground.now.tables.now }
    ensures { result ≡ moves_free ground.now movement station leg }
{
    ground.plan.choice(leg) == ground.fleet
        && moves_at(ground, movement, leg) == station
        && is_unpaired(ground, movement, leg)
}

// Whether a minute and a leg come before others.
fn is_before(minute: u16, leg: u32, other_minute: u16, other_leg: u32) -> bool
    ensures { result ≡ is_before minute leg other_minute other_leg }
{
    minute < other_minute || minute == other_minute && leg < other_leg
}

/// How many free landings there are at a station.
#[tactic(auto, unfolding(crate::specs::ground_turns::FirstOut::free_landings))]
pub(crate) fn landings(ground: &Ground<'_>, station: u32) -> u32
    requires { IsGround ground.now }
    ensures value { result ≡ landings_at ground.now station }
    ensures few { result ≤ legs_in ground.now.tables.now }
{
    let mut count = 0;
    for leg in 0..ground.tables.leg_count() {
        if moves_free(ground, Movement::Landing, station, leg) {
            count += 1;
        }
    }
    count
}

// Whether another leg is free where a leg lands or departs, and comes before it, whose minute is this.
fn is_ahead(ground: &Ground<'_>, movement: Movement, leg: u32, minute: u16, other: u32) -> bool
    requires ground { IsGround ground.now }
    requires leg { leg < legs_in ground.now.tables.now }
    requires other { other < legs_in ground.now.tables.now }
    requires minute { minute ≡ minute_of ground.now movement leg }
    ensures { result ≡ is_ahead ground.now movement leg other }
{
    let station = moves_at(ground, movement, leg);
    moves_free(ground, movement, station, other)
        && is_before(minute_of(ground, movement, other), other, minute, leg)
}

/// How many free landings or departures come before that of a leg where it lands or departs, by minute and leg.
pub(crate) fn place_of(ground: &Ground<'_>, movement: Movement, leg: u32) -> u32
    requires ground { IsGround ground.now }
    requires leg { leg < legs_in ground.now.tables.now }
    ensures value { result ≡ place_of ground.now movement leg }
    ensures few { result ≤ legs_in ground.now.tables.now }
{
    let minute = minute_of(ground, movement, leg);
    let mut count = 0;
    for other in 0..ground.tables.leg_count() {
        if is_ahead(ground, movement, leg, minute, other) {
            count += 1;
        }
    }
    count
}
