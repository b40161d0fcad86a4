ghost use Rattle.std.specs.Prelude.{◌≡◌, ◌*◌, ◌+◌, ◌<◌, ◌≤◌, ◌++◌, IfOk, OnOk, length};
ghost use Rattle.std.specs.List.{concat};
ghost use Rattle.fleet_model.specs.Counts.{weights_of};
ghost use Rattle.fleet_model.specs.Legal.{IsAssignment};
ghost use Rattle.fleet_model.specs.Schedule.{days_in, fleets_in, legs_in};
ghost use Rattle.fleet_model.specs.Use.{used_of};
ghost use Rattle.lines_of_flying.specs.ground_turns.Maps.{IsTour, turn_after};
ghost use Rattle.lines_of_flying.specs.Lines.{AreLegsOfTables, BeginsAfterStart, first_day, line_after, lines_ended, lines_of, nights_after, periods_after};

use crate::ground_turns::{crosses, flight, nights_waited};
use entries::{Entries, NoMemory};
use fleet_model::period::day_of_minute;
use fleet_model::{Assignment, Connection, Tables};
use std::alloc::Global;

/// The lines of a tour: the legs of each of its days, in their order. A day ends with each night, in a leg's flight or
/// in the wait that follows, and a day without a leg has an empty line. The tour begins after a period's start, and the
/// first line is of the day after that.
pub fn lines(
    alloc: Global,
    tables: &Tables,
    plan: &Assignment,
    fleet: u32,
    tour: &[u32],
) -> Result<Entries<Entries<u32>>, NoMemory>
    requires plan { IsAssignment tables.now plan.now }
    requires fleet { fleet < fleets_in tables.now }
    requires tour { IsTour tables.now plan.now fleet tour.now }
    requires begins { BeginsAfterStart tables.now fleet tour.now }
    ensures lines { IfOk result (λ lines. lines ≡ lines_of tables.now fleet tour.now) }
    ensures whole { IfOk result (λ lines. concat lines ≡ tour.now) }
    ensures days { IfOk result (λ lines. length lines ≡ used_of tables.now (weights_of plan.now) fleet * days_in tables.now) }
{
    Ok(cut(alloc, tables, fleet, tour)?)
}

/// A list of legs, cut at the nights between them: the lines of a tour, whichever plan it is of.
pub fn cut(
    alloc: Global,
    tables: &Tables,
    fleet: u32,
    tour: &[u32],
) -> Result<Entries<Entries<u32>>, NoMemory>
    requires fleet { fleet < fleets_in tables.now }
    requires some { 0 < length tour.now }
    requires known { AreLegsOfTables tables.now tour.now }
    ensures { IfOk result (λ lines. lines ≡ lines_of tables.now fleet tour.now) }
{
    let mut lines = Vec::new(alloc);
    let early = first_day(tables, fleet, tour);
    let begun = end_days(alloc, &mut lines, Vec::new(alloc), early)?;
    let mut line = begun;
    for place in 0..tour.len() {
        line.push(tour[place])?;
        let nights = nights_after(tables, fleet, tour, place);
        line = end_days(alloc, &mut lines, line, nights)?;
    }
    // the nights that follow the last leg lead into the next period by as many days as the first line begins before the
    // first leg
    lines.truncate(lines.len() - early as usize);
    Ok(Entries::from_vec(lines))
}

// Ends a line with each of so many nights, and gives the line after them.
fn end_days(
    alloc: Global,
    lines: &mut Vec<Entries<u32>>,
    line: Vec<u32>,
    nights: u32,
) -> Result<Vec<u32>, NoMemory>
    ensures ended { OnOk result (lines.new.items ≡ lines.old.items ++ lines_ended line.items nights) }
    ensures rest { IfOk result (λ rest. rest.items ≡ line_after line.items nights) }
{
    let mut line = line;
    for _ in 0..nights {
        lines.push(Entries::from_vec(line))?;
        line = Vec::new(alloc);
    }
    Ok(line)
}

/// The nights from a leg of a tour to the next: those in its flight and turn, and those in the wait that follows. Takes no
/// memory.
#[tactic(auto, unfolding(crate::specs::Lines::nights_after))]
pub fn nights_after(tables: &Tables, fleet: u32, tour: &[u32], place: usize) -> u32
    requires fleet { fleet < fleets_in tables.now }
    requires known { AreLegsOfTables tables.now tour.now }
    requires place { place < length tour.now }
    ensures { result ≡ nights_after tables.now fleet tour.now place }
{
    let turn = turn_after(tour, place);
    tables.nights(flight(tables, turn.arriving, fleet)) + nights_waited(tables, fleet, turn)
}

/// The period starts from a leg of a tour to the next: those in its flight and turn, and those in the wait that follows.
/// Takes no memory.
#[tactic(auto, unfolding(crate::specs::Lines::periods_after))]
pub fn periods_after(tables: &Tables, fleet: u32, tour: &[u32], place: usize) -> u32
    requires fleet { fleet < fleets_in tables.now }
    requires known { AreLegsOfTables tables.now tour.now }
    requires place { place < length tour.now }
    ensures { result ≡ periods_after tables.now fleet tour.now place }
{
    let turn = turn_after(tour, place);
    tables.laps(flight(tables, turn.arriving, fleet)) + u32::from(crosses(tables, fleet, turn))
}

/// The connection of a leg of a tour with the next one. Takes no memory.
pub fn turn_after(tour: &[u32], place: usize) -> Connection
    requires { place < length tour.now }
    ensures { result ≡ turn_after tour.now place }
{
    Connection {
        arriving: tour[place],
        departing: tour[(place + 1) % tour.len()],
    }
}

/// The day of the period on which a tour's first leg departs. Takes no memory.
pub fn first_day(tables: &Tables, fleet: u32, tour: &[u32]) -> u32
    requires fleet { fleet < fleets_in tables.now }
    requires some { 0 < length tour.now }
    requires known { AreLegsOfTables tables.now tour.now }
    ensures value { result ≡ first_day tables.now fleet tour.now }
    ensures few { result ≤ 7 }
{
    u32::from(day_of_minute(tables.departure(flight(tables, tour[0], fleet))))
}
