//! Where two turns touch one minute at one station.
ghost use Rattle.std.specs.Prelude.{◌≡◌, ◌<◌, ◌==◌, ◌&&◌, nat_lt};
ghost use Rattle.fleet_model.specs.Schedule.{fleets_in, legs_in, period_of};
ghost use Rattle.lines_of_flying.specs.ground_turns.Turns.{IsTurn, ready_at, station_at, touches};
ghost use Rattle.lines_of_flying.specs.cycle_join.Labels.{AreLabels, label_of};
ghost use Rattle.lines_of_flying.specs.cycle_join.Meetings.{IsMeetingGround, is_free, meets_cycle, share_minute};

use crate::cycle_join::ground::Ground;
use crate::ground_turns::{flight, minutes_until, wait};
use fleet_model::{Connection, Tables};

/// Whether a turn meets another: one of a cycle with a lower label, neither of a given pair, at the same station, and
/// both touch one minute.
pub(crate) fn meets(
    ground: &Ground<'_>,
    labels: &[u32],
    turn: Connection,
    other: Connection,
) -> bool
    requires ground { IsMeetingGround ground.now }
    requires labels { AreLabels labels.now (legs_in ground.now.tables.now) }
    requires turn { IsTurn ground.now.tables.now ground.now.plan.now ground.now.fleet turn }
    requires other { IsTurn ground.now.tables.now ground.now.plan.now ground.now.fleet other }
    ensures { result ≡ meets_cycle ground.now.tables.now ground.now.fleet ground.now.pairs.now labels.now turn other }
{
    may_meet(ground, labels, turn, other) && share_minute(ground.tables, ground.fleet, turn, other)
}

// Whether a turn may meet another: one of a cycle with a lower label, neither of a given pair, at the same station.
fn may_meet(ground: &Ground<'_>, labels: &[u32], turn: Connection, other: Connection) -> bool
    requires ground { IsMeetingGround ground.now }
    requires labels { AreLabels labels.now (legs_in ground.now.tables.now) }
    requires turn { turn.arriving < legs_in ground.now.tables.now }
    requires other { other.arriving < legs_in ground.now.tables.now }
    ensures { result ≡ (nat_lt (label_of labels.now other.arriving) (label_of labels.now turn.arriving) && is_free ground.now turn && is_free ground.now other
        && (station_at ground.now.tables.now turn == station_at ground.now.tables.now other)) }
{
    labels[other.arriving as usize] < labels[turn.arriving as usize]
        && is_free(ground, turn)
        && is_free(ground, other)
        && ground.tables.leg(turn.arriving).to == ground.tables.leg(other.arriving).to
}

// Whether no given pair says what follows the landing of a turn.
fn is_free(ground: &Ground<'_>, turn: Connection) -> bool
    requires ground { IsMeetingGround ground.now }
    requires turn { turn.arriving < legs_in ground.now.tables.now }
    ensures { result ≡ is_free ground.now turn }
{
    ground.free[turn.arriving as usize]
}

// Whether one of two turns touches the ready minute of the other.
fn share_minute(tables: &Tables, fleet: u32, turn: Connection, other: Connection) -> bool
    requires fleet { fleet < fleets_in tables.now }
    requires turn_arrives { turn.arriving < legs_in tables.now }
    requires turn_departs { turn.departing < legs_in tables.now }
    requires other_arrives { other.arriving < legs_in tables.now }
    requires other_departs { other.departing < legs_in tables.now }
    ensures { result ≡ share_minute tables.now fleet turn other }
{
    touches(tables, fleet, turn, ready(tables, fleet, other))
        || touches(tables, fleet, other, ready(tables, fleet, turn))
}

// Whether a turn touches a minute.
fn touches(tables: &Tables, fleet: u32, turn: Connection, minute: u16) -> bool
    requires fleet { fleet < fleets_in tables.now }
    requires arrives { turn.arriving < legs_in tables.now }
    requires departs { turn.departing < legs_in tables.now }
    requires minute { minute < period_of tables.now }
    ensures { result ≡ touches tables.now fleet turn minute }
{
    let ready = ready(tables, fleet, turn);
    minutes_until(tables.period(), ready, minute) <= wait(tables, fleet, turn)
}

// The minute at which a turn's aircraft can depart again.
fn ready(tables: &Tables, fleet: u32, turn: Connection) -> u16
    requires fleet { fleet < fleets_in tables.now }
    requires arrives { turn.arriving < legs_in tables.now }
    ensures value { result ≡ ready_at tables.now fleet turn }
    ensures within { result < period_of tables.now }
{
    tables.ready(flight(tables, turn.arriving, fleet))
}
