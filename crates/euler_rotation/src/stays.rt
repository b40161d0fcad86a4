//! The nights between the legs of a list, and which of them are overdue for maintenance.
ghost use Rattle.std.specs.Prelude.{◌<◌, ◌↔◌, IsTrue, length};
ghost use Rattle.fleet_model.specs.Schedule.{legs_in};
ghost use Rattle.euler_rotation.specs.Asked.{IsAsked};

use crate::asked::Asked;
use crate::nights::{has_maintenance, nights_without};
use entries::NoMemory;
use fleet_model::{Connection, Tables};
use std::alloc::Global;

/// The nights from a leg of a list to the next: so many without maintenance, and then perhaps one for it.
#[derive(Clone, Copy)]
pub(crate) struct Stay {
    nights: u32,
    maintained: bool,
}

/// Whether there is such a leg.
pub(crate) fn is_known(tables: &Tables, leg: u32) -> bool
    ensures { IsTrue result ↔ (leg < legs_in tables.now) }
{
    leg < tables.leg_count()
}

impl Stay {
    // That of no legs.
    const NONE: Stay = Stay {
        nights: 0,
        maintained: false,
    };
}

/// Those of all legs of a list, going round.
pub(crate) fn stays_of(
    alloc: Global,
    asked: &Asked<'_>,
    legs: &[u32],
) -> Result<Vec<Stay>, NoMemory>
    requires { IsAsked asked.now }
{
    let mut stays = Vec::new(alloc);
    for place in 0..legs.len() {
        stays.push(stay_between(asked, legs, place, place))?;
    }
    Ok(stays)
}

/// The one from the leg at a place to the leg behind another place, going round.
pub(crate) fn stay_between(asked: &Asked<'_>, legs: &[u32], place: usize, other: usize) -> Stay
    requires { IsAsked asked.now }
{
    if place >= legs.len() || other >= legs.len() {
        return Stay::NONE;
    }
    let turn = Connection {
        arriving: legs[place],
        departing: legs[(other + 1) % legs.len()],
    };
    if is_known(asked.tables, turn.arriving) && is_known(asked.tables, turn.departing) {
        Stay {
            nights: nights_without(asked, turn),
            maintained: has_maintenance(asked, turn),
        }
    } else {
        Stay::NONE
    }
}

/// What a round has come to.
#[derive(Clone, Copy)]
pub(crate) struct Round {
    /// The nights since the last for maintenance.
    pub(crate) since: u32,
    /// How many nights were overdue: of those between two for maintenance all but the first days less one.
    pub(crate) overdue: u32,
}

impl Round {
    /// One that begins with so many nights since the last for maintenance.
    pub(crate) fn begun(since: u32) -> Round {
        Round { since, overdue: 0 }
    }

    /// The round behind one more stay.
    #[inline(always)]
    pub(crate) fn behind(self, stay: Stay, days: u32) -> Round {
        let reached = self.since.saturating_add(stay.nights);
        let more = beyond(reached, days).saturating_sub(beyond(self.since, days));
        Round {
            since: if stay.maintained { 0 } else { reached },
            overdue: self.overdue.saturating_add(more),
        }
    }

    /// The round behind the stays from a place up to another one, which isn't among them.
    pub(crate) fn behind_all(self, stays: &[Stay], from: usize, to: usize, days: u32) -> Round {
        let mut round = self;
        if from <= to && to <= stays.len() {
            for stay in &stays[from..to] {
                round = round.behind(*stay, days);
            }
        }
        round
    }
}

/// How many nights are overdue, going round.
pub(crate) fn excess_of(stays: &[Stay], days: u32) -> u32 {
    let count = stays.len();
    let first = Round::begun(0).behind_all(stays, 0, count, days);
    Round::begun(first.since)
        .behind_all(stays, 0, count, days)
        .overdue
}

// By how many so many nights without maintenance pass the most that are allowed.
fn beyond(nights: u32, days: u32) -> u32 {
    nights.saturating_add(1).saturating_sub(days)
}

/// Whether a night is overdue before or after the turn at a place.
pub(crate) fn is_overdue(stays: &[Stay], place: usize, days: u32) -> bool
    requires { place < length stays.now }
{
    let stay = stays[place];
    let before = nights_before(stays, place).saturating_add(stay.nights);
    let after = nights_behind(stays, place);
    if stay.maintained {
        before >= days || after >= days
    } else {
        before.saturating_add(after) >= days
    }
}

// The nights since the last for maintenance before a place, going round.
fn nights_before(stays: &[Stay], place: usize) -> u32
    requires { place < length stays.now }
{
    let mut nights: u32 = 0;
    for step in 1..stays.len() {
        let stay = stays[(place + (stays.len() - step)) % stays.len()];
        if stay.maintained {
            return nights;
        }
        nights = nights.saturating_add(stay.nights);
    }
    nights
}

// The nights until the next for maintenance behind a place, going round.
fn nights_behind(stays: &[Stay], place: usize) -> u32
    requires { place < length stays.now }
{
    let mut nights: u32 = 0;
    for step in 1..stays.len() {
        let stay = stays[(place + step) % stays.len()];
        nights = nights.saturating_add(stay.nights);
        if stay.maintained {
            return nights;
        }
    }
    nights
}
