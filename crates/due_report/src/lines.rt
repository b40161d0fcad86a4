//! What each named tail flies on each date.
ghost use Rattle.std.specs.Prelude.{◌≡◌, ◌++◌, ◌*◌, ◌<◌, ◌^◌, IfOk, IfSome, OnOk, length, map};
ghost use Rattle.calendar_dates.specs.Days.{HasDays, day_on};
ghost use Rattle.due_report.specs.Lines.{AreBegun, AreTellable, IsTellable, begun_lines, days_tails, due_text, fleet_due, fleets_due, placed_lines, tail_line, tail_names, tails_on};
ghost use Rattle.due_report.specs.Placings.{ArePlacings, OnSomeDay};
ghost use Rattle.fleet_model.specs.Legal.{IsAssignment};
ghost use Rattle.fleet_model.specs.Schedule.{days_in, fleets_in};
ghost use Rattle.euler_rotation.specs.FleetRotations.{AllComeRound, AreFlown, AreRotations, ComesRound, IsTourOf, last_made};
ghost use Rattle.rotation_report.specs.Tails.{AreFleetLines, lines_by};

use crate::unplaced::{push_lacking, push_late, push_late_at, push_some_at, push_wrong_number};
use calendar_dates::{Date, dates_from};
use entries::{Entries, NoMemory};
use euler_rotation::{FleetRotation, Rotation};
use fleet_model::{Assignment, Tables};
use printed_lines::{Piece, push_line};
use rotation_report::FleetLines;
use rotation_report::tails::{flights_text, line_from, lines_by, push_no_tour};
use std::alloc::Global;
use tail_dates::{Placed, TailState};

/// The lines of named tails for so many dates, from the first on: of each fleet with a tour what each of its tails flies on
/// each date, or why they can't all come to maintenance in time; of each other fleet what became of its rotation.
#[tactic(auto, unfolding(crate::specs::Lines::due_text))]
pub fn due_lines(
    alloc: Global,
    tables: &Tables,
    plan: &Assignment,
    rotations: &[FleetRotation],
    tails: &[TailState],
    placings: &[Option<Placed>],
    date: Date,
    count: u32,
) -> Result<Vec<u8>, NoMemory>
    requires plan { IsAssignment tables.now plan.now }
    requires rotations { AreRotations tables.now rotations.now }
    requires tours { AreFlown tables.now plan.now rotations.now }
    requires placings { OnSomeDay tables.now (λ day. ArePlacings tables.now plan.now rotations.now day tails.now placings.now) }
    requires dates { HasDays date count }
    ensures { IfOk result (λ text. text.items ≡ due_text tables.now rotations.now tails.now placings.now (day_on date) count) }
{
    let dates = dates_from(alloc, date, count)?;
    due_on(alloc, tables, rotations, tails, placings, &dates)
}

/// The lines of named tails on some dates.
fn due_on(
    alloc: Global,
    tables: &Tables,
    rotations: &[FleetRotation],
    tails: &[TailState],
    placings: &[Option<Placed>],
    dates: &[Date],
) -> Result<Vec<u8>, NoMemory>
    requires rotations { AreRotations tables.now rotations.now }
    requires tours { AllComeRound tables.now rotations.now }
    requires placings { AreTellable tables.now rotations.now tails.now placings.now }
    requires few { length dates.now < 2 ^ 32 }
    ensures { IfOk result (λ text. text.items ≡ fleets_due tables.now rotations.now tails.now placings.now (map day_on dates.now) (length rotations.now)) }
{
    let mut text = Vec::new(alloc);
    for fleet in 0..rotations.len() as u32 {
        let made = &rotations[fleet as usize];
        let placing = &placings[fleet as usize];
        push_due(alloc, &mut text, tables, fleet, made, tails, placing, dates)?;
    }
    Ok(text)
}

/// Appends the lines of a fleet.
fn push_due(
    alloc: Global,
    text: &mut Vec<u8>,
    tables: &Tables,
    fleet: u32,
    made: &FleetRotation,
    tails: &[TailState],
    placing: &Option<Placed>,
    dates: &[Date],
) -> Result<(), NoMemory>
    requires fleet { fleet < fleets_in tables.now }
    requires tour { ComesRound tables.now fleet made.now.used (last_made made.now) }
    requires placing { IfSome placing.now (IsTellable tables.now fleet made.now.used tails.now) }
    requires few { length dates.now < 2 ^ 32 }
    ensures { OnOk result (text.new.items ≡ text.old.items ++ fleet_due tables.now fleet made.now tails.now placing.now (map day_on dates.now)) }
{
    let Some(placed) = placing else {
        return push_no_tour(alloc, text, tables, fleet, made);
    };
    match made.last() {
        Rotation::Tour(tour) => {
            let tour = tour.as_slice();
            push_placed(
                alloc, text, tables, fleet, made.used, tour, tails, placed, dates,
            )
        }
        _ => push_no_tour(alloc, text, tables, fleet, made),
    }
}

/// Appends the lines of a fleet that has a tour, which so many aircraft fly.
fn push_placed(
    alloc: Global,
    text: &mut Vec<u8>,
    tables: &Tables,
    fleet: u32,
    used: u32,
    tour: &[u32],
    tails: &[TailState],
    placed: &Placed,
    dates: &[Date],
) -> Result<(), NoMemory>
    requires fleet { fleet < fleets_in tables.now }
    requires tour { IsTourOf tables.now fleet used tour.now }
    requires placed { IsTellable tables.now fleet used tails.now placed.now }
    requires few { length dates.now < 2 ^ 32 }
    ensures { OnOk result (text.new.items ≡ text.old.items ++ placed_lines tables.now fleet used tour.now tails.now (map day_on dates.now) placed.now) }
{
    match placed {
        Placed::WrongNumber { tails, used } => {
            push_wrong_number(alloc, text, tables, fleet, *tails, *used)
        }
        Placed::Late {
            within,
            tails,
            starts,
        } => push_late(alloc, text, tables, fleet, *within, *tails, *starts),
        Placed::SomeAt { at, tails } => push_some_at(alloc, text, tables, fleet, *at, *tails),
        Placed::Lacks {
            place,
            tails,
            starts,
        } => push_lacking(alloc, text, tables, fleet, *place, *tails, *starts),
        Placed::LateAt {
            place,
            within,
            tails,
            starts,
        } => push_late_at(alloc, text, tables, fleet, *place, *within, *tails, *starts),
        Placed::Lines(starts) => {
            let starts = starts.as_slice();
            push_begun(alloc, text, tables, fleet, used, tour, tails, starts, dates)
        }
    }
}

/// Appends the lines of a fleet's tails, by the lines of its tour with which they begin.
fn push_begun(
    alloc: Global,
    text: &mut Vec<u8>,
    tables: &Tables,
    fleet: u32,
    used: u32,
    tour: &[u32],
    tails: &[TailState],
    starts: &[u64],
    dates: &[Date],
) -> Result<(), NoMemory>
    requires fleet { fleet < fleets_in tables.now }
    requires tour { IsTourOf tables.now fleet used tour.now }
    requires begun { AreBegun tables.now used (tail_names fleet tails.now) starts.now }
    requires few { length dates.now < 2 ^ 32 }
    ensures { OnOk result (text.new.items ≡ text.old.items ++ begun_lines tables.now fleet used tour.now tails.now (map day_on dates.now) starts.now) }
{
    let flown = lines_by(alloc, tables, fleet, used, tour)?;
    let names = names_of(alloc, tails, fleet)?;
    push_days(alloc, text, tables, &flown, &names, starts, dates)
}

/// The names of a fleet's tails, in their order.
fn names_of(alloc: Global, tails: &[TailState], fleet: u32) -> Result<Vec<Entries<u8>>, NoMemory>
    ensures { IfOk result (λ names. names.items ≡ tail_names fleet tails.now) }
{
    let mut names = Vec::new(alloc);
    for place in 0..tails.len() {
        if tails[place].fleet == fleet {
            let name = Vec::from_slice(alloc, tails[place].name.as_slice())?;
            names.push(Entries::from_vec(name))?;
        }
    }
    Ok(names)
}

/// Appends the lines of tails on some dates, by the lines with which they begin.
fn push_days(
    alloc: Global,
    text: &mut Vec<u8>,
    tables: &Tables,
    flown: &FleetLines,
    names: &[Entries<u8>],
    starts: &[u64],
    dates: &[Date],
) -> Result<(), NoMemory>
    requires flown { AreFleetLines tables.now flown.now }
    requires begun { AreBegun tables.now flown.now.used names.now starts.now }
    requires few { length dates.now < 2 ^ 32 }
    ensures { OnOk result (text.new.items ≡ text.old.items ++ days_tails tables.now flown.now names.now starts.now (map day_on dates.now) (length dates.now)) }
{
    for day in 0..dates.len() as u32 {
        let date = dates[day as usize];
        push_day(alloc, text, tables, flown, names, starts, date, day)?;
    }
    Ok(())
}

/// Appends the lines of tails on a date, so many days after the first one.
fn push_day(
    alloc: Global,
    text: &mut Vec<u8>,
    tables: &Tables,
    flown: &FleetLines,
    names: &[Entries<u8>],
    starts: &[u64],
    date: Date,
    day: u32,
) -> Result<(), NoMemory>
    requires flown { AreFleetLines tables.now flown.now }
    requires begun { AreBegun tables.now flown.now.used names.now starts.now }
    ensures { OnOk result (text.new.items ≡ text.old.items ++ tails_on tables.now flown.now names.now starts.now (day_on date) day (length names.now)) }
{
    let date = date.to_string(alloc)?;
    for tail in 0..names.len() {
        let name = names[tail].as_slice();
        push_tail(alloc, text, tables, flown, &date, day, name, starts[tail])?;
    }
    Ok(())
}

/// Appends `DATE TAIL: FLIGHTS` of a tail that begins with a line, so many days after the first date.
fn push_tail(
    alloc: Global,
    text: &mut Vec<u8>,
    tables: &Tables,
    flown: &FleetLines,
    date: &str,
    day: u32,
    name: &[u8],
    first: u64,
) -> Result<(), NoMemory>
    requires flown { AreFleetLines tables.now flown.now }
    requires first { first < flown.now.used * days_in tables.now }
    ensures { OnOk result (text.new.items ≡ text.old.items ++ tail_line tables.now flown.now date.now day name.now first) }
{
    let flights = flights_text(alloc, tables, line_from(tables, flown, day, first))?;
    push_line(
        alloc,
        text,
        &[
            Piece::Text(date.as_bytes()),
            Piece::Text(b" "),
            Piece::Text(name),
            Piece::Text(b":"),
            Piece::Text(flights.as_slice()),
        ],
    )
}
