//! How many nights pass until an aircraft has come to maintenance.
ghost use Rattle.std.specs.Prelude.{◌≡◌, ◌<◌, ◌≤◌, ◌+◌, ◌*◌, ◌++◌, ◌^◌, ℕ, IfOk, OnOk, length, map, replicate};
ghost use Rattle.fleet_model.specs.Counts.{weights_of};
ghost use Rattle.fleet_model.specs.Legal.{IsAssignment};
ghost use Rattle.fleet_model.specs.Schedule.{days_in, fleets_in};
ghost use Rattle.fleet_model.specs.Use.{used_of};
ghost use Rattle.lines_of_flying.specs.ground_turns.Maps.{IsTour, turn_after};
ghost use Rattle.lines_of_flying.specs.ground_turns.Nights.{IsKeptFor, can_maintain, nights_in_turn, nights_of_tour};
ghost use Rattle.lines_of_flying.specs.Lines.{AreLegsOfTables, BeginsAfterStart};
ghost use Rattle.tail_dates.specs.Late.{AreLessThan};
ghost use Rattle.tail_dates.specs.Reaches.{AreReaches, IsReach, maintenance_nights, start_line};
ghost use Rattle.tail_dates.specs.Rounds.{HasMaintenance};

use entries::NoMemory;
use fleet_model::{Assignment, Tables};
use lines_of_flying::ground_turns::{flight, is_maintained, nights_waited};
use lines_of_flying::{first_day, turn_after};
use std::alloc::Global;

/// The reach of each start of a tour of so many aircraft, on a day of the period, counted from 0.
pub(crate) fn reaches_of(
    alloc: Global,
    tables: &Tables,
    plan: &Assignment,
    fleet: u32,
    tour: &[u32],
    day: u32,
    used: u32,
) -> Result<Vec<u64>, NoMemory>
    requires plan { IsAssignment tables.now plan.now }
    requires fleet { fleet < fleets_in tables.now }
    requires tour { IsTour tables.now plan.now fleet tour.now }
    requires begins { BeginsAfterStart tables.now fleet tour.now }
    requires kept { (days : ℕ) × (IsKeptFor tables.now (nights_of_tour tables.now fleet tour.now) days) }
    requires day { day < days_in tables.now }
    requires used { used ≡ used_of tables.now (weights_of plan.now) fleet }
    ensures value { IfOk result (λ reaches. AreReaches tables.now fleet tour.now day used reaches.items) }
    ensures few { IfOk result (λ reaches. AreLessThan (2 ^ 40) reaches.items) }
{
    let nights = maintenance_nights(alloc, tables, fleet, tour)?;
    let first = nights.len() as u64 - u64::from(first_day(tables, fleet, tour));
    let mut reaches = Vec::new(alloc);
    for start in 0..used {
        let line = start_line(tables, day, u64::from(start));
        reaches.push(reach(&nights, first + line))?;
    }
    Ok(reaches)
}

/// The line of a start on a day of the period: of that day in the period after so many.
pub(crate) fn start_line(tables: &Tables, day: u32, period: u64) -> u64
    requires day { day < days_in tables.now }
    requires few { period < 2 ^ 32 }
    ensures value { result ≡ start_line tables.now day period }
    ensures few { result < 2 ^ 40 }
{
    period * u64::from(tables.day_count()) + u64::from(day)
}

/// Of the nights from one on, going round, how many pass to the first for maintenance, it among them. Takes no memory.
fn reach(nights: &[bool], first: u64) -> u64
    requires some { HasMaintenance nights.now }
    requires few { length nights.now < 2 ^ 40 }
    requires first { first < 2 ^ 40 }
    ensures value { IsReach nights.now first result }
    ensures few { result ≤ length nights.now }
{
    let count = nights.len() as u64;
    for after in 0..count {
        if nights[((first + after) % count) as usize] {
            return after + 1;
        }
    }
    unreachable!()
}

/// Of each night of a tour, going round from its first leg, whether it is for maintenance.
fn maintenance_nights(
    alloc: Global,
    tables: &Tables,
    fleet: u32,
    tour: &[u32],
) -> Result<Vec<bool>, NoMemory>
    requires fleet { fleet < fleets_in tables.now }
    requires known { AreLegsOfTables tables.now tour.now }
    ensures { IfOk result (λ nights. nights.items ≡ maintenance_nights tables.now fleet tour.now) }
{
    let mut nights = Vec::new(alloc);
    for place in 0..tour.len() {
        push_nights(&mut nights, tables, fleet, tour, place)?;
    }
    Ok(nights)
}

/// Appends the nights after a leg of a tour: those in its flight and its turn, and those in the wait that follows.
fn push_nights(
    nights: &mut Vec<bool>,
    tables: &Tables,
    fleet: u32,
    tour: &[u32],
    place: usize,
) -> Result<(), NoMemory>
    requires fleet { fleet < fleets_in tables.now }
    requires known { AreLegsOfTables tables.now tour.now }
    requires place { place < length tour.now }
    ensures { OnOk result (nights.new.items ≡ nights.old.items ++ map (can_maintain tables.now) (nights_in_turn tables.now fleet (turn_after tour.now place))) }
{
    let turn = turn_after(tour, place);
    let aloft = tables.nights(flight(tables, turn.arriving, fleet));
    push_same(nights, aloft, false)?;
    push_same(
        nights,
        nights_waited(tables, fleet, turn),
        is_maintained(tables, fleet, turn),
    )
}

/// Appends an entry so many times.
pub(crate) fn push_same<T: Copy + Drop>(
    list: &mut Vec<T>,
    count: u32,
    entry: T,
) -> Result<(), NoMemory>
    ensures { OnOk result (list.new.items ≡ list.old.items ++ replicate count entry) }
{
    for _ in 0..count {
        list.push(entry)?;
    }
    Ok(())
}
