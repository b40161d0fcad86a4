//! Tours that bring their aircraft to maintenance more often.
//!
//! Two parts of a tour between three turns at one station change places, for as long as this leaves fewer nights
//! overdue. Nothing is claimed of what comes out: whether it is a kept tour is tested afterwards.
ghost use Rattle.std.specs.Prelude.{◌<◌, ◌↔◌, IsTrue};
ghost use Rattle.fleet_model.specs.Schedule.{legs_in};
ghost use Rattle.euler_rotation.specs.Asked.{IsAsked, TellClean};

use crate::asked::Asked;
use crate::clean::{CleanTurns, may_turn};
use crate::stays::{Round, Stay, excess_of, is_known, is_overdue, stay_between, stays_of};
use entries::NoMemory;
use std::alloc::Global;

/// How many changed tours are looked at.
const TRIES: u32 = 50_000;

/// A tour, changed for as long as fewer nights become overdue.
pub(crate) fn improved(
    alloc: Global,
    clean: &CleanTurns<'_>,
    tour: &[u32],
) -> Result<Vec<u32>, NoMemory>
    requires { TellClean clean.now }
{
    let mut legs = tour.to_vec(alloc)?;
    let mut tries = TRIES;
    for _ in 0..TRIES {
        match better(alloc, clean, &legs, &mut tries)? {
            Some(next) => legs = next,
            None => return Ok(legs),
        }
    }
    Ok(legs)
}

// The first changed tour with fewer nights overdue, where some are.
fn better(
    alloc: Global,
    clean: &CleanTurns<'_>,
    legs: &[u32],
    tries: &mut u32,
) -> Result<Option<Vec<u32>>, NoMemory>
    requires { TellClean clean.now }
{
    let stays = stays_of(alloc, clean.asked, legs)?;
    better_than(alloc, clean, legs, &stays, tries)
}

// The same, with the nights between the legs.
fn better_than(
    alloc: Global,
    clean: &CleanTurns<'_>,
    legs: &[u32],
    stays: &[Stay],
    tries: &mut u32,
) -> Result<Option<Vec<u32>>, NoMemory>
    requires { TellClean clean.now }
{
    let most = excess_of(stays, clean.asked.days);
    for place in 0..stays.len() {
        if is_overdue(stays, place, clean.asked.days) {
            if let Some(next) = better_at(alloc, clean, legs, stays, place, most, tries)? {
                return Ok(Some(next));
            }
        }
    }
    Ok(None)
}

// The same, where one of the three turns is given by its place.
fn better_at(
    alloc: Global,
    clean: &CleanTurns<'_>,
    legs: &[u32],
    stays: &[Stay],
    place: usize,
    most: u32,
    tries: &mut u32,
) -> Result<Option<Vec<u32>>, NoMemory>
    requires { TellClean clean.now }
{
    for second in 0..legs.len() {
        if meets(clean, legs, place, second) {
            let places = (place, second);
            if let Some(next) = better_with(alloc, clean, legs, stays, places, most, tries)? {
                return Ok(Some(next));
            }
        }
    }
    Ok(None)
}

// The same, where two of the turns are given.
fn better_with(
    alloc: Global,
    clean: &CleanTurns<'_>,
    legs: &[u32],
    stays: &[Stay],
    places: (usize, usize),
    most: u32,
    tries: &mut u32,
) -> Result<Option<Vec<u32>>, NoMemory>
    requires { TellClean clean.now }
{
    for third in 0..legs.len() {
        if places.1 < third && *tries > 0 {
            let change = in_order(places.0, places.1, third);
            if may_change(clean, legs, change) {
                *tries -= 1;
                if overdue(clean.asked, legs, stays, change) < most {
                    return Ok(Some(changed(alloc, legs, change)?));
                }
            }
        }
    }
    Ok(None)
}

// How many nights of the changed tour are overdue. All stays but three are those of the tour, so it isn't made for that.
fn overdue(asked: &Asked<'_>, legs: &[u32], stays: &[Stay], change: Change) -> u32
    requires { IsAsked asked.now }
{
    let new = NewStays {
        first: stay_between(asked, legs, change.first, change.second),
        second: stay_between(asked, legs, change.third, change.first),
        third: stay_between(asked, legs, change.second, change.third),
    };
    let first = new.round(stays, change, asked.days, Round::begun(0));
    new.round(stays, change, asked.days, Round::begun(first.since))
        .overdue
}

// The stays of the three new turns of a changed tour, in their order there.
#[derive(Clone, Copy)]
struct NewStays {
    first: Stay,
    second: Stay,
    third: Stay,
}

impl NewStays {
    // A round over the changed tour.
    fn round(self, stays: &[Stay], change: Change, days: u32, begun: Round) -> Round {
        let Change {
            first,
            second,
            third,
        } = change;
        begun
            .behind_all(stays, 0, first, days)
            .behind(self.first, days)
            .behind_all(stays, second.saturating_add(1), third, days)
            .behind(self.second, days)
            .behind_all(stays, first.saturating_add(1), second, days)
            .behind(self.third, days)
            .behind_all(stays, third.saturating_add(1), stays.len(), days)
    }
}

/// Three turns of a tour by their places, rising: what lies between the first two and what lies between the last two
/// change places.
#[derive(Clone, Copy)]
struct Change {
    first: usize,
    second: usize,
    third: usize,
}

// A place, and two others that rise, in order.
fn in_order(place: usize, low: usize, high: usize) -> Change {
    if place < low {
        Change {
            first: place,
            second: low,
            third: high,
        }
    } else if place < high {
        Change {
            first: low,
            second: place,
            third: high,
        }
    } else {
        Change {
            first: low,
            second: high,
            third: place,
        }
    }
}

// Whether two turns are at one station.
fn meets(clean: &CleanTurns<'_>, legs: &[u32], place: usize, other: usize) -> bool {
    let tables = clean.asked.tables;
    match (legs.get(place), legs.get(other)) {
        (Some(first), Some(second)) => {
            is_known(tables, *first)
                && is_known(tables, *second)
                && tables.leg(*first).to == tables.leg(*second).to
        }
        _ => false,
    }
}

// Whether the three turns differ, and the three new ones are clean and keep the given pairs.
fn may_change(clean: &CleanTurns<'_>, legs: &[u32], change: Change) -> bool
    requires { TellClean clean.now }
{
    change.first < change.second
        && change.second < change.third
        && goes_on(clean, legs, change.first, change.second)
        && goes_on(clean, legs, change.third, change.first)
        && goes_on(clean, legs, change.second, change.third)
}

// Whether the leg at a place may be followed by the one behind another place.
fn goes_on(clean: &CleanTurns<'_>, legs: &[u32], place: usize, other: usize) -> bool
    requires { TellClean clean.now }
{
    if place >= legs.len() || other >= legs.len() {
        return false;
    }
    let arriving = legs[place];
    let departing = legs[(other + 1) % legs.len()];
    is_known(clean.asked.tables, arriving)
        && is_known(clean.asked.tables, departing)
        && may_turn(clean, arriving, departing)
}

// The changed tour.
fn changed(alloc: Global, legs: &[u32], change: Change) -> Result<Vec<u32>, NoMemory> {
    let mut next = Vec::new(alloc);
    add(&mut next, legs, None, change.first)?;
    add(&mut next, legs, Some(change.second), change.third)?;
    add(&mut next, legs, Some(change.first), change.second)?;
    add(&mut next, legs, Some(change.third), legs.len())?;
    Ok(next)
}

// Puts the legs behind a place, or from the first on, up to another place behind those so far.
fn add(
    next: &mut Vec<u32>,
    legs: &[u32],
    behind: Option<usize>,
    up_to: usize,
) -> Result<(), NoMemory> {
    for place in 0..legs.len() {
        if is_behind(place, behind) && place <= up_to {
            next.push(legs[place])?;
        }
    }
    Ok(())
}

// Whether a place is behind another.
fn is_behind(place: usize, other: Option<usize>) -> bool {
    match other {
        Some(other) => other < place,
        None => true,
    }
}
