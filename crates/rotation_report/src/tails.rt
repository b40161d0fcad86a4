//! What each aircraft of a fleet, by its tail, flies on each date.
ghost use Rattle.std.specs.Prelude.{◌≡◌, ◌++◌, ◌+◌, ◌*◌, ◌<◌, ◌^◌, IfOk, OnOk, length, map};
ghost use Rattle.std.specs.List.{flat_map};
ghost use Rattle.fleet_model.specs.Legal.{IsAssignment};
ghost use Rattle.fleet_model.specs.Schedule.{days_in, fleets_in};
ghost use Rattle.lines_of_flying.specs.Lines.{AreLegsOfTables};
ghost use Rattle.calendar_dates.specs.Days.{HasDays, day_on};
ghost use Rattle.euler_rotation.specs.FleetRotations.{AllComeRound, AreFlown, AreRotations, ComesRound, IsTourOf, last_made};
ghost use Rattle.rotation_report.specs.Tails.{AreFleetLines, dated_line, day_lines, days_lines, fleet_tails, fleets_tails, flights_text, line_from, line_on, lines_by, no_tour_line, spaced_flight, tails_text};

use crate::flying::FleetLines;
use crate::words::rotation_words;
use calendar_dates::{Date, dates_from};
use entries::NoMemory;
use euler_rotation::{FleetRotation, Rotation};
use fleet_model::{Assignment, Tables};
use lines_of_flying::cut;
use printed_lines::{Piece, push_line};
use std::alloc::Global;

/// The lines of tails for so many dates, from the first on, which comes so many days after a first day of the period: of each
/// fleet with a tour what each of its aircraft flies on each date, and of each other fleet what became of its rotation. An
/// aircraft comes to the next line of the tour each day.
#[tactic(auto, unfolding(crate::specs::Tails::tails_text))]
pub fn tail_lines(
    alloc: Global,
    tables: &Tables,
    plan: &Assignment,
    rotations: &[FleetRotation],
    past: u32,
    date: Date,
    count: u32,
) -> Result<Vec<u8>, NoMemory>
    requires plan { IsAssignment tables.now plan.now }
    requires rotations { AreRotations tables.now rotations.now }
    requires tours { AreFlown tables.now plan.now rotations.now }
    requires dates { HasDays date count }
    requires few { past + count < 2 ^ 32 }
    ensures { IfOk result (λ text. text.items ≡ tails_text tables.now rotations.now past (day_on date) count) }
{
    let dates = dates_from(alloc, date, count)?;
    tails_on(alloc, tables, rotations, past, &dates)
}

/// The lines of tails on some dates, of which the first comes so many days after a first day of the period.
fn tails_on(
    alloc: Global,
    tables: &Tables,
    rotations: &[FleetRotation],
    past: u32,
    dates: &[Date],
) -> Result<Vec<u8>, NoMemory>
    requires rotations { AreRotations tables.now rotations.now }
    requires tours { AllComeRound tables.now rotations.now }
    requires few { past + length dates.now < 2 ^ 32 }
    ensures { IfOk result (λ text. text.items ≡ fleets_tails tables.now rotations.now past (map day_on dates.now) (length rotations.now)) }
{
    let mut text = Vec::new(alloc);
    for fleet in 0..rotations.len() as u32 {
        let made = &rotations[fleet as usize];
        push_tails(alloc, &mut text, tables, fleet, made, past, dates)?;
    }
    Ok(text)
}

/// Appends the lines of a fleet.
fn push_tails(
    alloc: Global,
    text: &mut Vec<u8>,
    tables: &Tables,
    fleet: u32,
    made: &FleetRotation,
    past: u32,
    dates: &[Date],
) -> Result<(), NoMemory>
    requires fleet { fleet < fleets_in tables.now }
    requires tour { ComesRound tables.now fleet made.now.used (last_made made.now) }
    requires few { past + length dates.now < 2 ^ 32 }
    ensures { OnOk result (text.new.items ≡ text.old.items ++ fleet_tails tables.now fleet made.now past (map day_on dates.now)) }
{
    match made.last() {
        Rotation::Tour(tour) => {
            let tour = tour.as_slice();
            push_tour(alloc, text, tables, fleet, made.used, tour, past, dates)
        }
        _ => push_no_tour(alloc, text, tables, fleet, made),
    }
}

/// Appends the lines of a tour that so many aircraft fly.
fn push_tour(
    alloc: Global,
    text: &mut Vec<u8>,
    tables: &Tables,
    fleet: u32,
    used: u32,
    tour: &[u32],
    past: u32,
    dates: &[Date],
) -> Result<(), NoMemory>
    requires fleet { fleet < fleets_in tables.now }
    requires tour { IsTourOf tables.now fleet used tour.now }
    requires few { past + length dates.now < 2 ^ 32 }
    ensures { OnOk result (text.new.items ≡ text.old.items ++ days_lines tables.now (lines_by tables.now fleet used tour.now) past (map day_on dates.now) (length (map day_on dates.now))) }
{
    let flown = lines_by(alloc, tables, fleet, used, tour)?;
    push_days(alloc, text, tables, &flown, past, dates)
}

/// Appends `F: A` of a fleet that has no tour.
pub fn push_no_tour(
    alloc: Global,
    text: &mut Vec<u8>,
    tables: &Tables,
    fleet: u32,
    made: &FleetRotation,
) -> Result<(), NoMemory>
    requires { fleet < fleets_in tables.now }
    ensures { OnOk result (text.new.items ≡ text.old.items ++ no_tour_line tables.now fleet made.now) }
{
    let words = rotation_words(alloc, tables, made)?;
    push_line(
        alloc,
        text,
        &[
            Piece::Text(tables.fleet(fleet).name.as_slice()),
            Piece::Text(b": "),
            Piece::Text(words.as_bytes()),
        ],
    )
}

/// The lines of a tour, and how many aircraft fly them.
pub fn lines_by(
    alloc: Global,
    tables: &Tables,
    fleet: u32,
    used: u32,
    tour: &[u32],
) -> Result<FleetLines, NoMemory>
    requires fleet { fleet < fleets_in tables.now }
    requires tour { IsTourOf tables.now fleet used tour.now }
    ensures value { IfOk result (λ flown. flown ≡ lines_by tables.now fleet used tour.now) }
    ensures fits { IfOk result (AreFleetLines tables.now) }
{
    Ok(FleetLines {
        fleet,
        used,
        lines: cut(alloc, tables, fleet, tour)?,
    })
}

/// Appends the lines of all aircraft on some days, of which the first comes so many days after a first day of the period.
fn push_days(
    alloc: Global,
    text: &mut Vec<u8>,
    tables: &Tables,
    flown: &FleetLines,
    past: u32,
    dates: &[Date],
) -> Result<(), NoMemory>
    requires flown { AreFleetLines tables.now flown.now }
    requires few { past + length dates.now < 2 ^ 32 }
    ensures { OnOk result (text.new.items ≡ text.old.items ++ days_lines tables.now flown.now past (map day_on dates.now) (length dates.now)) }
{
    for day in 0..dates.len() as u32 {
        push_day(alloc, text, tables, flown, dates[day as usize], past + day)?;
    }
    Ok(())
}

/// Appends the lines of all aircraft on a date, so many days after a first day of the period.
fn push_day(
    alloc: Global,
    text: &mut Vec<u8>,
    tables: &Tables,
    flown: &FleetLines,
    date: Date,
    day: u32,
) -> Result<(), NoMemory>
    requires { AreFleetLines tables.now flown.now }
    ensures { OnOk result (text.new.items ≡ text.old.items ++ day_lines tables.now flown.now (day_on date) day flown.now.used) }
{
    let date = date.to_string(alloc)?;
    for aircraft in 0..flown.used {
        push_tail(alloc, text, tables, flown, &date, day, aircraft)?;
    }
    Ok(())
}

/// Appends `DATE F/K: FLIGHTS` of the aircraft after so many, so many days after a first day of the period.
fn push_tail(
    alloc: Global,
    text: &mut Vec<u8>,
    tables: &Tables,
    flown: &FleetLines,
    date: &str,
    day: u32,
    aircraft: u32,
) -> Result<(), NoMemory>
    requires flown { AreFleetLines tables.now flown.now }
    requires aircraft { aircraft < flown.now.used }
    ensures { OnOk result (text.new.items ≡ text.old.items ++ dated_line tables.now flown.now date.now day aircraft) }
{
    let flights = flights_text(alloc, tables, line_on(tables, flown, day, aircraft))?;
    push_line(
        alloc,
        text,
        &[
            Piece::Text(date.as_bytes()),
            Piece::Text(b" "),
            Piece::Text(tables.fleet(flown.fleet).name.as_slice()),
            Piece::Text(b"/"),
            Piece::Count(u64::from(aircraft) + 1),
            Piece::Text(b":"),
            Piece::Text(flights.as_slice()),
        ],
    )
}

/// The line that an aircraft flies so many days after a first day of the period: on that day it begins a period after the one
/// before it, and it comes to the next line each day. Takes no memory.
fn line_on<'a>(tables: &Tables, flown: &'a FleetLines, day: u32, aircraft: u32) -> &'a [u32]
    requires flown { AreFleetLines tables.now flown.now }
    requires aircraft { aircraft < flown.now.used }
    ensures value { result.now ≡ line_on tables.now flown.now day aircraft }
    ensures legs { AreLegsOfTables tables.now result.now }
{
    let first = u64::from(aircraft) * u64::from(tables.day_count());
    line_from(tables, flown, day, first)
}

/// The line that an aircraft flies so many days after a date on which it begins with the line after so many: it comes to the
/// next line each day. Takes no memory.
pub fn line_from<'a>(tables: &Tables, flown: &'a FleetLines, day: u32, first: u64) -> &'a [u32]
    requires flown { AreFleetLines tables.now flown.now }
    requires first { first < flown.now.used * days_in tables.now }
    ensures value { result.now ≡ line_from tables.now flown.now day first }
    ensures legs { AreLegsOfTables tables.now result.now }
{
    let lines = flown.lines.as_slice();
    let count = u64::from(flown.used) * u64::from(tables.day_count());
    let place = ((first + u64::from(day)) % count) as usize;
    lines[place].as_slice()
}

/// The flights of a line, each after a space, and a dash where it has none.
pub fn flights_text(alloc: Global, tables: &Tables, legs: &[u32]) -> Result<Vec<u8>, NoMemory>
    requires { AreLegsOfTables tables.now legs.now }
    ensures { IfOk result (λ text. text.items ≡ flights_text tables.now legs.now) }
{
    match legs.split_first() {
        None => {
            let mut dash = Vec::new(alloc);
            dash.extend_from_slice(b" -")?;
            Ok(dash)
        }
        Some(_) => spaced_flights(alloc, tables, legs),
    }
}

/// The flights of legs, each after a space.
fn spaced_flights(alloc: Global, tables: &Tables, legs: &[u32]) -> Result<Vec<u8>, NoMemory>
    requires { AreLegsOfTables tables.now legs.now }
    ensures { IfOk result (λ text. text.items ≡ flat_map (spaced_flight tables.now) legs.now) }
{
    let mut text = Vec::new(alloc);
    for leg in legs {
        text.push(b' ')?;
        text.extend_from_slice(tables.leg(*leg).flight.as_slice())?;
    }
    Ok(text)
}
