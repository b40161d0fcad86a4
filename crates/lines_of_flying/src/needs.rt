//! The aircraft that must be at a station at the period's start for its free departures.
ghost use Rattle.std.specs.Prelude.{◌≡◌, ◌-◌, ◌<◌, ◌≤◌};
ghost use Rattle.fleet_model.specs.Schedule.{legs_in};
ghost use Rattle.lines_of_flying.specs.Grounds.{IsGround, free_departed_by, landed_by, need_at};
ghost use Rattle.lines_of_flying.specs.Moves.{has_moved, moved_by};

use crate::free::moves_free;
use crate::ground::{Ground, Movement, minute_of};

/// The aircraft that must be at a station at the period's start, so that none of its free departures ever lacks one.
///
/// The greatest excess is that of a minute in which a leg departs, so only these are looked at.
#[tactic(auto, using(crate::proofs::FreeNeed::free_need_found), unfolding(sums::specs::Below::max_below))]
pub(crate) fn need(ground: &Ground<'_>, station: u32) -> u32
    requires { IsGround ground.now }
    ensures value { result ≡ need_at ground.now station }
    ensures few { result ≤ legs_in ground.now.tables.now }
{
    let mut most = 0;
    for leg in 0..ground.tables.leg_count() {
        if moves_free(ground, Movement::Departure, station, leg) {
            most = most.max(excess(ground, station, minute_of(ground, Movement::Departure, leg)));
        }
    }
    most
}

// By how much free departures pass free landings by the end of a minute.
fn excess(ground: &Ground<'_>, station: u32, minute: u16) -> u32
    requires { IsGround ground.now }
    ensures value { result ≡ free_departed_by ground.now station minute - landed_by ground.now station minute }
    ensures few { result ≤ legs_in ground.now.tables.now }
{
    let departed = moved(ground, Movement::Departure, station, minute);
    departed.saturating_sub(moved(ground, Movement::Landing, station, minute))
}

// How many free landings or departures there are by the end of a minute.
fn moved(ground: &Ground<'_>, movement: Movement, station: u32, minute: u16) -> u32
    requires { IsGround ground.now }
    ensures value { result ≡ moved_by ground.now movement station minute }
    ensures few { result ≤ legs_in ground.now.tables.now }
{
    let mut count = 0;
    for leg in 0..ground.tables.leg_count() {
        if has_moved(ground, movement, station, minute, leg) {
            count += 1;
        }
    }
    count
}

// Whether a leg's landing or departure is free at a station, and its aircraft ready or gone by the end of a minute.
fn has_moved(ground: &Ground<'_>, movement: Movement, station: u32, minute: u16, leg: u32) -> bool
    requires ground { IsGround ground.now }
    requires leg { leg < legs_in ground.now.tables.now }
    ensures { result ≡ has_moved ground.now movement station minute leg }
{
    moves_free(ground, movement, station, leg) && minute_of(ground, movement, leg) <= minute
}
