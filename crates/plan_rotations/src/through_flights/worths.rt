//! What the turns of a fleet are worth.
ghost use Rattle.std.specs.Prelude.{◌≡◌, ◌<◌, ◌↔◌, ℕ, IsTrue, length, slice_index, IfOk};
ghost use Rattle.fleet_model.specs.Counts.{choice_at};
ghost use Rattle.fleet_model.specs.Schedule.{legs_in};
ghost use Rattle.plan_rotations.specs.through_flights.Known.{AreFleetTurns};
ghost use Rattle.plan_rotations.specs.through_flights.Worths.{AreTurnWorths, IsCleanTurn, IsShort, IsTurnWorth, listed_value, through_pair};

use crate::through_flights::values::values_from;
use entries::{Entries, NoMemory};
use fleet_model::{Assignment, Connection, Tables};
use lines_of_flying::ground_turns::{nights_waited, wait};
use std::alloc::Global;

/// The greatest sum of through values: of as many pairs as there can be legs.
pub const MAX_VALUE: u64 = 1_000_000_000_000;

/// What a clean turn is worth: more than the through values of all legs.
pub const CLEAN_WORTH: u64 = 1_000_000_000_000_001;

/// A fleet's part of a plan, with the longest wait of a clean turn from each leg.
#[derive(Drop)]
pub struct FleetTurns<'a> {
    pub tables: &'a Tables,
    pub plan: &'a Assignment,
    pub fleet: u32,
    pub longest: Entries<u16>,
}

/// What each turn is worth: a list for each leg that arrives, by the leg that departs.
pub fn turn_worths(alloc: Global, turns: &FleetTurns<'_>) -> Result<Vec<Entries<u64>>, NoMemory>
    requires { AreFleetTurns turns.now }
    ensures { IfOk result (λ worths. AreTurnWorths turns.now.tables.now turns.now.plan.now turns.now.fleet worths.items) }
{
    let mut worths = Vec::new(alloc);
    for arriving in 0..turns.tables.leg_count() {
        worths.push(turn_worths_from(alloc, turns, arriving)?)?;
    }
    Ok(worths)
}

/// What the turns from a leg are worth.
fn turn_worths_from(
    alloc: Global,
    turns: &FleetTurns<'_>,
    arriving: u32,
) -> Result<Entries<u64>, NoMemory>
    requires turns { AreFleetTurns turns.now }
    requires arriving { arriving < legs_in turns.now.tables.now }
    ensures size { IfOk result (λ worths. length worths ≡ legs_in turns.now.tables.now) }
    ensures each { IfOk result (λ worths. (departing : ℕ) → departing < legs_in turns.now.tables.now
        → IsTurnWorth turns.now.tables.now turns.now.plan.now turns.now.fleet (through_pair arriving departing) (slice_index worths departing)) }
{
    let values = values_from(alloc, turns.tables, arriving)?;
    let mut worths = Vec::new(alloc);
    for departing in 0..turns.tables.leg_count() {
        let value = values.as_slice()[departing as usize];
        worths.push(turn_worth(
            turns,
            Connection {
                arriving,
                departing,
            },
            value,
        ))?;
    }
    Ok(Entries::from_vec(worths))
}

/// What a turn is worth, where its legs have this value as a through pair.
fn turn_worth(turns: &FleetTurns<'_>, pair: Connection, value: u64) -> u64
    requires turns { AreFleetTurns turns.now }
    requires arriving { pair.arriving < legs_in turns.now.tables.now }
    requires departing { pair.departing < legs_in turns.now.tables.now }
    requires value { value ≡ listed_value turns.now.tables.now pair }
    ensures { IsTurnWorth turns.now.tables.now turns.now.plan.now turns.now.fleet pair result }
{
    if turns.plan.choice(pair.arriving) != turns.fleet {
        if pair.arriving == pair.departing {
            CLEAN_WORTH
        } else {
            0
        }
    } else if !is_clean_turn(turns, pair) {
        0
    } else if is_short(turns, pair) {
        CLEAN_WORTH + value
    } else {
        CLEAN_WORTH
    }
}

/// Whether a leg of the fleet goes on in a clean turn.
fn is_clean_turn(turns: &FleetTurns<'_>, pair: Connection) -> bool
    requires turns { AreFleetTurns turns.now }
    requires arriving { pair.arriving < legs_in turns.now.tables.now }
    requires departing { pair.departing < legs_in turns.now.tables.now }
    requires own { choice_at turns.now.plan.now pair.arriving ≡ turns.now.fleet }
    ensures { IsTrue result ↔ IsCleanTurn turns.now.tables.now turns.now.plan.now turns.now.fleet pair }
{
    turns.plan.choice(pair.departing) == turns.fleet
        && turns.tables.leg(pair.arriving).to == turns.tables.leg(pair.departing).from
        && wait(turns.tables, turns.fleet, pair) <= turns.longest.as_slice()[pair.arriving as usize]
}

/// Whether no night lies in a turn's wait, and it is no longer than a through pair may wait.
fn is_short(turns: &FleetTurns<'_>, pair: Connection) -> bool
    requires turns { AreFleetTurns turns.now }
    requires arriving { pair.arriving < legs_in turns.now.tables.now }
    requires departing { pair.departing < legs_in turns.now.tables.now }
    ensures { IsTrue result ↔ IsShort turns.now.tables.now turns.now.fleet pair }
{
    nights_waited(turns.tables, turns.fleet, pair) == 0
        && wait(turns.tables, turns.fleet, pair) <= turns.tables.settings.through_max
}
