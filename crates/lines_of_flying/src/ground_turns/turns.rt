ghost use Rattle.std.specs.Prelude.{◌≡◌, ◌<◌, ◌≤◌, ◌^◌};
ghost use Rattle.fleet_model.specs.Schedule.{IsPair, days_in, fleets_in, leg_on, legs_in, period_of};
ghost use Rattle.lines_of_flying.specs.ground_turns.Nights.{can_maintain, is_short, night_of_stay, stay_of};
ghost use Rattle.lines_of_flying.specs.ground_turns.Turns.{crosses, minutes_round, nights_waited, wait_of};

use fleet_model::period::day_of_minute;
use fleet_model::{Connection, Pair, Tables};

/// A leg with the choice that has a fleet's number, by which the fleet flies it on plain tables. Takes no memory.
pub fn flight(tables: &Tables, leg: u32, fleet: u32) -> Pair
    requires leg { leg < legs_in tables.now }
    requires fleet { fleet < fleets_in tables.now }
    ensures value { result ≡ leg_on leg fleet }
    ensures pair { IsPair tables.now result }
{
    Pair { leg, choice: fleet }
}

/// How many minutes after one minute another comes, going round in a period of so many. Takes no memory.
pub fn minutes_until(period: u16, from: u16, to: u16) -> u16
    requires period { period ≤ 2 ^ 15 }
    requires from { from < period }
    requires to { to < period }
    ensures value { result ≡ minutes_round period from to }
    ensures within { result < period }
{
    (to + period - from) % period
}

/// The minutes that an aircraft of a fleet waits in a turn. Takes no memory.
pub fn wait(tables: &Tables, fleet: u32, turn: Connection) -> u16
    requires fleet { fleet < fleets_in tables.now }
    requires arriving { turn.arriving < legs_in tables.now }
    requires departing { turn.departing < legs_in tables.now }
    ensures value { result ≡ wait_of tables.now fleet turn }
    ensures within { result < period_of tables.now }
{
    let ready = tables.ready(flight(tables, turn.arriving, fleet));
    let departure = tables.departure(flight(tables, turn.departing, fleet));
    minutes_until(tables.period(), ready, departure)
}

/// Whether a fleet's turn crosses the period's start. Takes no memory.
pub fn crosses(tables: &Tables, fleet: u32, turn: Connection) -> bool
    requires fleet { fleet < fleets_in tables.now }
    requires arriving { turn.arriving < legs_in tables.now }
    requires departing { turn.departing < legs_in tables.now }
    ensures { result ≡ crosses tables.now fleet turn }
{
    let ready = tables.ready(flight(tables, turn.arriving, fleet));
    tables.departure(flight(tables, turn.departing, fleet)) < ready
}

/// The nights that an aircraft of a fleet waits in a turn: the day starts in its wait. Takes no memory.
pub fn nights_waited(tables: &Tables, fleet: u32, turn: Connection) -> u32
    requires fleet { fleet < fleets_in tables.now }
    requires arriving { turn.arriving < legs_in tables.now }
    requires departing { turn.departing < legs_in tables.now }
    ensures value { result ≡ nights_waited tables.now fleet turn }
    ensures few { result ≤ days_in tables.now }
    ensures week { result ≤ 7 }
{
    let ready = tables.ready(flight(tables, turn.arriving, fleet));
    let wait = wait(tables, fleet, turn);
    u32::from(day_of_minute(ready + wait) - day_of_minute(ready))
}

/// The minutes that an aircraft of a fleet is on the ground in a turn, from its arrival to its departure. Takes no memory.
pub fn stay(tables: &Tables, fleet: u32, turn: Connection) -> u16
    requires fleet { fleet < fleets_in tables.now }
    requires arriving { turn.arriving < legs_in tables.now }
    requires departing { turn.departing < legs_in tables.now }
    ensures { result ≡ stay_of tables.now fleet turn }
{
    let station = tables.station(tables.leg(turn.arriving).to);
    tables.fleet(fleet).turn + station.extra + wait(tables, fleet, turn)
}

/// Whether an aircraft of a fleet is on the ground in a turn for less time than a night for maintenance is asked to have.
/// Takes no memory.
pub fn is_short(tables: &Tables, fleet: u32, turn: Connection) -> bool
    requires fleet { fleet < fleets_in tables.now }
    requires arriving { turn.arriving < legs_in tables.now }
    requires departing { turn.departing < legs_in tables.now }
    ensures { result ≡ is_short tables.now fleet turn }
{
    stay(tables, fleet, turn) < tables.settings.least_night
}

/// Whether the nights that an aircraft of a fleet waits in a turn are for maintenance: the station maintains, and they aren't
/// short. Takes no memory.
#[tactic(auto, using(crate::proofs::ground_turns::Stays::stay_maintains))]
pub fn is_maintained(tables: &Tables, fleet: u32, turn: Connection) -> bool
    requires fleet { fleet < fleets_in tables.now }
    requires arriving { turn.arriving < legs_in tables.now }
    requires departing { turn.departing < legs_in tables.now }
    ensures { result ≡ can_maintain tables.now (night_of_stay tables.now fleet turn) }
{
    let station = tables.station(tables.leg(turn.arriving).to);
    station.maintenance && !is_short(tables, fleet, turn)
}
