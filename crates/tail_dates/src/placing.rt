ghost use Rattle.std.specs.Prelude.{◌≡◌, ◌<◌, ◌≤◌, ◌^◌, ℕ, IfOk, length};
ghost use Rattle.fleet_model.specs.Counts.{weights_of};
ghost use Rattle.fleet_model.specs.Legal.{IsAssignment};
ghost use Rattle.fleet_model.specs.Schedule.{days_in, fleets_in};
ghost use Rattle.lines_of_flying.specs.ground_turns.Maps.{IsTour};
ghost use Rattle.lines_of_flying.specs.ground_turns.Nights.{IsKeptFor, nights_of_tour};
ghost use Rattle.lines_of_flying.specs.Lines.{BeginsAfterStart};
ghost use Rattle.fleet_model.specs.Use.{used_of};
ghost use Rattle.tail_dates.specs.InTime.{GivesStarts, ShowsNone};
ghost use Rattle.tail_dates.specs.Late.{AreLessThan};
ghost use Rattle.tail_dates.specs.Places.{places_in};
ghost use Rattle.tail_dates.specs.Placing.{AreNotLate, AreStarts, IsAnswer, IsAnswerThere, IsPlaced};
ghost use Rattle.tail_dates.specs.There.{NoneLacks, keys};

use crate::late::{at_most, first_late};
use crate::place_numbers::{place_count, place_of};
use crate::ranks::starts_by_rank;
use crate::reaches::reaches_of;
use crate::tails::{Place, TailState, lefts_of, told_of};
use crate::there::{count_at, first_lacking, first_late_there, keys};
use crate::tour_places::start_places;
use entries::{Entries, NoMemory};
use fleet_model::{Assignment, Tables};
use plan_judge::used;
use std::alloc::Global;

/// What becomes of a fleet's tails.
#[derive(Drop)]
pub enum Placed {
    /// The fleet's tails aren't as many as the aircraft that it uses.
    WrongNumber {
        /// The tails of the fleet.
        tails: u64,
        /// The aircraft that it uses.
        used: u32,
    },
    /// More tails have to come to maintenance within so many nights than there are starts that do.
    Late {
        /// The nights: the least number for which this is so.
        within: u64,
        /// The tails with at most so many nights left.
        tails: u64,
        /// The starts with a reach of at most so many nights.
        starts: u64,
    },
    /// Of some of the fleet's tails it is told where they are, and of others it isn't.
    SomeAt {
        /// The tails of which it is told.
        at: u64,
        /// The tails of the fleet.
        tails: u64,
    },
    /// More starts are at a place than tails.
    Lacks {
        /// The first such place: stations come first, and then flights, in the order of their tables.
        place: Place,
        /// The tails that are there.
        tails: u64,
        /// The starts that are there.
        starts: u64,
    },
    /// No place lacks tails, and more of those at a place have to come to maintenance within so many nights than starts there do.
    LateAt {
        /// The first such place.
        place: Place,
        /// The nights: the least number for which this is so there.
        within: u64,
        /// The tails there with at most so many nights left.
        tails: u64,
        /// The starts there with a reach of at most so many nights.
        starts: u64,
    },
    /// Of each tail of the fleet, in their order, the line with which it begins, by its number from 0.
    Lines(Entries<u64>),
}

/// With which line of a fleet's tour each of its tails begins, on a day of the period, counted from 0. A start is the line of
/// that day in each period of the tour. Its reach is how many nights pass up to the first one for maintenance, the one that
/// ends its line among them. It is where its aircraft is in the night before. Tails by the nights that they have left take the
/// starts by their reach, equal ones in their order: at each place, where it is told of all tails, and else wherever they are.
///
/// The tour is one that comes to maintenance, and begins as `euler_rotation::rotate` gives it.
pub fn place(
    alloc: Global,
    tables: &Tables,
    plan: &Assignment,
    fleet: u32,
    tour: &[u32],
    day: u32,
    tails: &[TailState],
) -> Result<Placed, NoMemory>
    requires plan { IsAssignment tables.now plan.now }
    requires fleet { fleet < fleets_in tables.now }
    requires tour { IsTour tables.now plan.now fleet tour.now }
    requires begins { BeginsAfterStart tables.now fleet tour.now }
    requires kept { (days : ℕ) × (IsKeptFor tables.now (nights_of_tour tables.now fleet tour.now) days) }
    requires day { day < days_in tables.now }
    ensures placed { IfOk result (IsPlaced tables.now plan.now fleet tour.now day tails.now) }
    ensures in_time { IfOk result (GivesStarts tables.now plan.now fleet tour.now day tails.now) }
    ensures none { IfOk result (ShowsNone tables.now plan.now fleet tour.now day tails.now) }
{
    outcome(alloc, tables, plan, fleet, tour, day, tails)
}

/// What becomes of a fleet's tails.
fn outcome(
    alloc: Global,
    tables: &Tables,
    plan: &Assignment,
    fleet: u32,
    tour: &[u32],
    day: u32,
    tails: &[TailState],
) -> Result<Placed, NoMemory>
    requires plan { IsAssignment tables.now plan.now }
    requires fleet { fleet < fleets_in tables.now }
    requires tour { IsTour tables.now plan.now fleet tour.now }
    requires begins { BeginsAfterStart tables.now fleet tour.now }
    requires kept { (days : ℕ) × (IsKeptFor tables.now (nights_of_tour tables.now fleet tour.now) days) }
    requires day { day < days_in tables.now }
    ensures { IfOk result (IsPlaced tables.now plan.now fleet tour.now day tails.now) }
{
    let lefts = lefts_of(alloc, tails, fleet)?;
    let used = used(tables, plan, fleet);
    if lefts.len() as u64 != u64::from(used) {
        return Ok(Placed::WrongNumber {
            tails: lefts.len() as u64,
            used,
        });
    }
    let reaches = reaches_of(alloc, tables, plan, fleet, tour, day, used)?;
    if let Some(within) = first_late(&lefts, &reaches) {
        return Ok(Placed::Late {
            within,
            tails: at_most(&lefts, within),
            starts: at_most(&reaches, within),
        });
    }
    let told = told_of(alloc, tables, tails, fleet)?;
    placed_by(
        alloc, tables, plan, fleet, tour, day, &lefts, &reaches, &told,
    )
}

/// What becomes of tails that aren't late wherever they are, by where they are told to be.
fn placed_by(
    alloc: Global,
    tables: &Tables,
    plan: &Assignment,
    fleet: u32,
    tour: &[u32],
    day: u32,
    lefts: &[u64],
    reaches: &[u64],
    told: &[u64],
) -> Result<Placed, NoMemory>
    requires plan { IsAssignment tables.now plan.now }
    requires fleet { fleet < fleets_in tables.now }
    requires tour { IsTour tables.now plan.now fleet tour.now }
    requires begins { BeginsAfterStart tables.now fleet tour.now }
    requires day { day < days_in tables.now }
    requires not_late { AreNotLate tables.now fleet tour.now day lefts.now (used_of tables.now (weights_of plan.now) fleet) reaches.now }
    requires bytes { AreLessThan 256 lefts.now }
    requires few { length lefts.now < 2 ^ 32 }
    requires few_reaches { AreLessThan (2 ^ 40) reaches.now }
    requires told { length told.now ≤ length lefts.now }
    ensures { IfOk result (IsAnswer tables.now fleet tour.now day lefts.now told.now (used_of tables.now (weights_of plan.now) fleet)) }
{
    if told.is_empty() {
        return Ok(Placed::Lines(starts_by_rank(alloc, tables, day, lefts, reaches)?));
    }
    if told.len() < lefts.len() {
        return Ok(Placed::SomeAt {
            at: told.len() as u64,
            tails: lefts.len() as u64,
        });
    }
    let used = lefts.len() as u32;
    let places = start_places(alloc, tables, plan, fleet, tour, day, used)?;
    placed_there(alloc, tables, day, lefts, told, reaches, &places)
}

/// What becomes of tails of which each is told where it is, beside starts that are at these places.
fn placed_there(
    alloc: Global,
    tables: &Tables,
    day: u32,
    lefts: &[u64],
    told: &[u64],
    reaches: &[u64],
    places: &[u64],
) -> Result<Placed, NoMemory>
    requires day { day < days_in tables.now }
    requires told { length told.now ≡ length lefts.now }
    requires reaches { length reaches.now ≡ length lefts.now }
    requires places { length places.now ≡ length lefts.now }
    requires few { length lefts.now < 2 ^ 32 }
    requires bytes { AreLessThan 256 lefts.now }
    requires few_reaches { AreLessThan (2 ^ 40) reaches.now }
    requires known { AreLessThan (places_in tables.now) places.now }
    ensures { IfOk result (IsAnswerThere tables.now day lefts.now told.now reaches.now places.now) }
{
    let all = place_count(tables);
    if let Some(place) = first_lacking(told, places, all) {
        return Ok(Placed::Lacks {
            place: place_of(tables, place),
            tails: count_at(told, place),
            starts: count_at(places, place),
        });
    }
    match first_late_there(alloc, told, lefts, places, reaches, all)? {
        Some(late) => Ok(Placed::LateAt {
            place: place_of(tables, late.place),
            within: late.within,
            tails: late.tails,
            starts: late.starts,
        }),
        None => Ok(Placed::Lines(starts_there(alloc, tables, day, lefts, told, reaches, places)?)),
    }
}

/// Of each tail the line of a start at its place.
fn starts_there(
    alloc: Global,
    tables: &Tables,
    day: u32,
    lefts: &[u64],
    told: &[u64],
    reaches: &[u64],
    places: &[u64],
) -> Result<Entries<u64>, NoMemory>
    requires day { day < days_in tables.now }
    requires told { length told.now ≡ length lefts.now }
    requires reaches { length reaches.now ≡ length lefts.now }
    requires places { length places.now ≡ length lefts.now }
    requires few { length lefts.now < 2 ^ 32 }
    requires bytes { AreLessThan 256 lefts.now }
    requires few_reaches { AreLessThan (2 ^ 40) reaches.now }
    requires known { AreLessThan (places_in tables.now) places.now }
    requires none_lacks { NoneLacks told.now places.now (places_in tables.now) }
    ensures { IfOk result (λ lines. AreStarts tables.now day (keys told.now lefts.now) (keys places.now reaches.now) lines) }
{
    let tails = keys(alloc, told, lefts)?;
    let starts = keys(alloc, places, reaches)?;
    starts_by_rank(alloc, tables, day, &tails, &starts)
}
