//! Where the aircraft of a tour are as days start.
ghost use Rattle.std.specs.Prelude.{◌≡◌, ◌<◌, ◌++◌, ℕ, IfOk, OnOk, length};
ghost use Rattle.fleet_model.specs.Counts.{weights_of};
ghost use Rattle.fleet_model.specs.Legal.{IsAssignment};
ghost use Rattle.fleet_model.specs.Schedule.{days_in, fleets_in};
ghost use Rattle.fleet_model.specs.Use.{used_of};
ghost use Rattle.lines_of_flying.specs.ground_turns.Maps.{IsTour, turn_after};
ghost use Rattle.lines_of_flying.specs.Lines.{AreLegsOfTables, BeginsAfterStart};
ghost use Rattle.tail_dates.specs.Places.{AreStartPlaces, places_in_turn, places_of_tour};

use crate::place_numbers::number_of;
use crate::reaches::{push_same, start_line};
use crate::tails::Place;
use entries::NoMemory;
use fleet_model::{Assignment, Tables};
use lines_of_flying::ground_turns::{flight, nights_waited};
use lines_of_flying::{first_day, turn_after};
use std::alloc::Global;

/// The numbers of the places of a tour's starts on a day of the period, counted from 0: of each where the aircraft that begins
/// with it is in the night before.
pub(crate) fn start_places(
    alloc: Global,
    tables: &Tables,
    plan: &Assignment,
    fleet: u32,
    tour: &[u32],
    day: u32,
    used: u32,
) -> Result<Vec<u64>, NoMemory>
    requires plan { IsAssignment tables.now plan.now }
    requires fleet { fleet < fleets_in tables.now }
    requires tour { IsTour tables.now plan.now fleet tour.now }
    requires begins { BeginsAfterStart tables.now fleet tour.now }
    requires day { day < days_in tables.now }
    requires used { used ≡ used_of tables.now (weights_of plan.now) fleet }
    ensures { IfOk result (λ places. AreStartPlaces tables.now fleet tour.now day used places.items) }
{
    let nights = places_of_tour(alloc, tables, fleet, tour)?;
    let count = nights.len() as u64;
    let first = count - u64::from(first_day(tables, fleet, tour));
    let mut places = Vec::new(alloc);
    for start in 0..used {
        let line = start_line(tables, day, u64::from(start));
        let before = (first + line + count - 1) % count;
        places.push(number_of(tables, nights[before as usize]))?;
    }
    Ok(places)
}

/// Where an aircraft of a tour is in each night, going round from the first leg.
fn places_of_tour(
    alloc: Global,
    tables: &Tables,
    fleet: u32,
    tour: &[u32],
) -> Result<Vec<Place>, NoMemory>
    requires fleet { fleet < fleets_in tables.now }
    requires known { AreLegsOfTables tables.now tour.now }
    ensures { IfOk result (λ places. places.items ≡ places_of_tour tables.now fleet tour.now) }
{
    let mut places = Vec::new(alloc);
    for turn in 0..tour.len() {
        push_turn(&mut places, tables, fleet, tour, turn)?;
    }
    Ok(places)
}

/// Appends where the aircraft is in the nights of a turn: in the flight that arrives, and then at the station.
fn push_turn(
    places: &mut Vec<Place>,
    tables: &Tables,
    fleet: u32,
    tour: &[u32],
    place: usize,
) -> Result<(), NoMemory>
    requires fleet { fleet < fleets_in tables.now }
    requires known { AreLegsOfTables tables.now tour.now }
    requires place { place < length tour.now }
    ensures { OnOk result (places.new.items ≡ places.old.items ++ places_in_turn tables.now fleet (turn_after tour.now place)) }
{
    let turn = turn_after(tour, place);
    let leg = turn.arriving;
    let aloft = tables.nights(flight(tables, leg, fleet));
    push_same(places, aloft, Place::Flies { leg })?;
    let station = tables.leg(leg).to;
    let waited = nights_waited(tables, fleet, turn);
    push_same(places, waited, Place::Stands { station })
}
