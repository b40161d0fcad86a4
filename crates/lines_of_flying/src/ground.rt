//! What is known of a fleet's aircraft on the ground beside given pairs.
ghost use Rattle.std.specs.Prelude.{◌≡◌, ◌<◌, ◌≤◌, ◌==◌, IfOk};
ghost use Rattle.fleet_model.specs.Legal.{IsAssignment};
ghost use Rattle.fleet_model.specs.Schedule.{fleets_in, legs_in};
ghost use Rattle.lines_of_flying.specs.ground_turns.Maps.{arrivals_of, departures_of};
ghost use Rattle.lines_of_flying.specs.Grounds.{AreMarks, IsGround};
ghost use Rattle.lines_of_flying.specs.Moves.{minute_of, pairs_with, moves_at};

use crate::ground_turns::flight;
use entries::NoMemory;
use fleet_model::{Assignment, Connection, Tables};
use std::alloc::Global;

/// What an aircraft does at a station.
#[derive(Clone, Copy)]
pub(crate) enum Movement {
    Landing,
    Departure,
}

/// A fleet by an assignment, given pairs, and which legs none of them has.
#[derive(Drop)]
pub(crate) struct Ground<'a> {
    pub tables: &'a Tables,
    pub plan: &'a Assignment,
    pub fleet: u32,
    pub pairs: &'a [Connection],
    /// By leg: no given pair says what follows it.
    pub lands: Vec<bool>,
    /// By leg: no given pair says what comes before it.
    pub departs: Vec<bool>,
}

/// A fleet by an assignment, with given pairs.
pub(crate) fn ground_of<'a>(
    alloc: Global,
    tables: &'a Tables,
    plan: &'a Assignment,
    fleet: u32,
    pairs: &'a [Connection],
) -> Result<Ground<'a>, NoMemory>
    requires plan { IsAssignment tables.now plan.now }
    requires fleet { fleet < fleets_in tables.now }
    ensures ground { IfOk result IsGround }
    ensures tables { IfOk result (λ ground. ground.tables.now ≡ tables.now) }
    ensures plan { IfOk result (λ ground. ground.plan.now ≡ plan.now) }
    ensures fleet { IfOk result (λ ground. ground.fleet ≡ fleet) }
    ensures pairs { IfOk result (λ ground. ground.pairs.now ≡ pairs.now) }
{
    let legs = tables.leg_count();
    let lands = marks_of_arriving(alloc, legs, pairs)?;
    let departs = marks_of_departing(alloc, legs, pairs)?;
    Ok(Ground {
        tables,
        plan,
        fleet,
        pairs,
        lands,
        departs,
    })
}

/// The station where a leg lands, or from which it departs.
pub(crate) fn moves_at(ground: &Ground<'_>, movement: Movement, leg: u32) -> u32
    requires ground { IsGround ground.now }
    requires leg { leg < legs_in ground.now.tables.now }
    ensures { result ≡ moves_at ground.now movement leg }
{
    match movement {
        Movement::Landing => ground.tables.leg(leg).to,
        Movement::Departure => ground.tables.leg(leg).from,
    }
}

/// The minute at which the fleet's aircraft can depart again after a leg, or at which it departs on it.
pub(crate) fn minute_of(ground: &Ground<'_>, movement: Movement, leg: u32) -> u16
    requires ground { IsGround ground.now }
    requires leg { leg < legs_in ground.now.tables.now }
    ensures { result ≡ minute_of ground.now movement leg }
{
    let pair = flight(ground.tables, leg, ground.fleet);
    match movement {
        Movement::Landing => ground.tables.ready(pair),
        Movement::Departure => ground.tables.departure(pair),
    }
}

/// Whether no given pair says what follows a leg, or what comes before it.
pub(crate) fn is_unpaired(ground: &Ground<'_>, movement: Movement, leg: u32) -> bool
    requires ground { IsGround ground.now }
    requires leg { leg < legs_in ground.now.tables.now }
    ensures { result ≡ (pairs_with ground.now movement leg == 0) }
{
    match movement {
        Movement::Landing => ground.lands[leg as usize],
        Movement::Departure => ground.departs[leg as usize],
    }
}

/// By leg, whether no given pair says what follows it.
pub fn marks_of_arriving(
    alloc: Global,
    legs: u32,
    pairs: &[Connection],
) -> Result<Vec<bool>, NoMemory>
    ensures { IfOk result (λ marks. AreMarks (arrivals_of pairs.now) legs marks.items) }
{
    let mut marks = Vec::new(alloc);
    for leg in 0..legs {
        marks.push(arrivals(pairs, leg) == 0)?;
    }
    Ok(marks)
}

// By leg, whether no given pair says what comes before it.
fn marks_of_departing(alloc: Global, legs: u32, pairs: &[Connection]) -> Result<Vec<bool>, NoMemory>
    ensures { IfOk result (λ marks. AreMarks (departures_of pairs.now) legs marks.items) }
{
    let mut marks = Vec::new(alloc);
    for leg in 0..legs {
        marks.push(departures(pairs, leg) == 0)?;
    }
    Ok(marks)
}

// In how many pairs a leg arrives.
fn arrivals(pairs: &[Connection], leg: u32) -> usize
    ensures { result ≡ arrivals_of pairs.now leg }
{
    let mut count = 0;
    for pair in pairs {
        if pair.arriving == leg {
            count += 1;
        }
    }
    count
}

// In how many pairs a leg departs.
fn departures(pairs: &[Connection], leg: u32) -> usize
    ensures { result ≡ departures_of pairs.now leg }
{
    let mut count = 0;
    for pair in pairs {
        if pair.departing == leg {
            count += 1;
        }
    }
    count
}
