//! The nights of a fleet, and how many pass without maintenance.
ghost use Rattle.std.specs.Prelude.{◌≡◌, ◌+◌, ◌<◌, ◌≤◌, true, false, MatchOption};
ghost use Rattle.std.specs.List.{list_any};
ghost use Rattle.fleet_model.specs.Schedule.{legs_in};
ghost use Rattle.lines_of_flying.specs.ground_turns.Nights.{can_maintain, nights_in_turn};
ghost use Rattle.euler_rotation.specs.Asked.{IsAsked};
ghost use Rattle.euler_rotation.specs.Often.{GoesOn, nights_since, stays_below};

use crate::asked::Asked;
use fleet_model::Connection;
use lines_of_flying::ground_turns::{flight, is_maintained, nights_waited};

/// The nights without maintenance after those of a turn, where so many came before; nothing where they come to the days
/// that are asked for. Takes no memory.
pub(crate) fn since_after(asked: &Asked<'_>, since: u32, turn: Connection) -> Option<u32>
    requires asked { IsAsked asked.now }
    requires since { since < asked.now.days }
    requires arriving { turn.arriving < legs_in asked.now.tables.now }
    requires departing { turn.departing < legs_in asked.now.tables.now }
    ensures { GoesOn asked.now.tables.now asked.now.days since (nights_in_turn asked.now.tables.now asked.now.fleet turn) result }
{
    let aloft = since
        + asked
            .tables
            .nights(flight(asked.tables, turn.arriving, asked.fleet));
    if aloft >= asked.days {
        return None;
    }
    let waited = nights_waited(asked.tables, asked.fleet, turn);
    if waited == 0 {
        return Some(aloft);
    }
    if is_maintained(asked.tables, asked.fleet, turn) {
        return Some(0);
    }
    if aloft + waited >= asked.days {
        return None;
    }
    Some(aloft + waited)
}

/// Whether a night of a turn is for maintenance. Takes no memory.
pub(crate) fn has_maintenance(asked: &Asked<'_>, turn: Connection) -> bool
    requires asked { IsAsked asked.now }
    requires arriving { turn.arriving < legs_in asked.now.tables.now }
    requires departing { turn.departing < legs_in asked.now.tables.now }
    ensures { result ≡ list_any (can_maintain asked.now.tables.now) (nights_in_turn asked.now.tables.now asked.now.fleet turn) }
{
    nights_waited(asked.tables, asked.fleet, turn) > 0
        && is_maintained(asked.tables, asked.fleet, turn)
}

/// The nights of a turn but those for maintenance. Takes no memory.
pub(crate) fn nights_without(asked: &Asked<'_>, turn: Connection) -> u32
    requires asked { IsAsked asked.now }
    requires arriving { turn.arriving < legs_in asked.now.tables.now }
    requires departing { turn.departing < legs_in asked.now.tables.now }
{
    let aloft = asked
        .tables
        .nights(flight(asked.tables, turn.arriving, asked.fleet));
    if is_maintained(asked.tables, asked.fleet, turn) {
        aloft
    } else {
        aloft + nights_waited(asked.tables, asked.fleet, turn)
    }
}
