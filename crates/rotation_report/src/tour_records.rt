//! The records of a tour: its legs, and the nights after each.
ghost use Rattle.std.specs.Prelude.{◌≡◌, ◌<◌, ◌≤◌, [], ◌∷◌, OnOk, codes, if◌then◌else◌, length, map, replicate};
ghost use Rattle.fleet_model.specs.Schedule.{fleets_in, leg_on, legs_in};
ghost use Rattle.fleet_model.specs.Times.{nights_of};
ghost use Rattle.lines_of_flying.specs.ground_turns.Maps.{turn_after};
ghost use Rattle.lines_of_flying.specs.ground_turns.Nights.{nights_in_turn};
ghost use Rattle.lines_of_flying.specs.Lines.{days_of_tour};
ghost use Rattle.plan_text.specs.CsvText.{IsBetweenRecords};
ghost use Rattle.rotation_report.specs.RoundRows.{HasRows};
ghost use Rattle.rotation_report.specs.RotationRecords.{begun_tour_rows, leg_row, night_row, short_no, yes_no};
ghost use Rattle.euler_rotation.specs.FleetRotations.{AreListed};

use crate::record_writer::{Round, put_numbers, put_row};
use csv::Writer;
use entries::NoMemory;
use fleet_model::Tables;
use lines_of_flying::ground_turns::{flight, is_short};
use lines_of_flying::{nights_after, turn_after};
use std::alloc::Global;

/// Writes a tour.
pub fn put_tour(
    alloc: Global,
    writer: &mut Writer<Vec<u8>>,
    round: Round<'_>,
    tables: &Tables,
    fleet: u32,
    tour: &[u32],
) -> Result<(), NoMemory>
    requires between { IsBetweenRecords writer.old }
    requires fleet { fleet < fleets_in tables.now }
    requires tour { AreListed tables.now tour.now }
    ensures { OnOk result (HasRows writer.old writer.new round.entry (begun_tour_rows tables.now fleet tour.now (length tour.now))) }
{
    let days = days_of(tables, fleet, tour);
    put_numbers(alloc, writer, round, b"tour", days, tour.len() as u64)?;
    for place in 0..tour.len() {
        put_leg(alloc, writer, round, tables, fleet, tour, place)?;
        put_nights(writer, round, tables, fleet, tour, place)?;
    }
    Ok(())
}

/// The days of a tour: the nights from its first leg until it comes back to it. Takes no memory.
fn days_of(tables: &Tables, fleet: u32, tour: &[u32]) -> u64
    requires fleet { fleet < fleets_in tables.now }
    requires listed { AreListed tables.now tour.now }
    ensures { result ≡ days_of_tour tables.now fleet tour.now }
{
    let mut days: u64 = 0;
    for place in 0..tour.len() {
        days += u64::from(nights_after(tables, fleet, tour, place));
    }
    days
}

/// Writes a leg of a tour.
fn put_leg(
    alloc: Global,
    writer: &mut Writer<Vec<u8>>,
    round: Round<'_>,
    tables: &Tables,
    fleet: u32,
    tour: &[u32],
    place: usize,
) -> Result<(), NoMemory>
    requires between { IsBetweenRecords writer.old }
    requires fleet { fleet < fleets_in tables.now }
    requires tour { AreListed tables.now tour.now }
    requires place { place < length tour.now }
    ensures { OnOk result (HasRows writer.old writer.new round.entry (leg_row tables.now fleet tour.now place ∷ [])) }
{
    let flight = tables.leg(tour[place]).flight.as_slice();
    let nights = nights_after(tables, fleet, tour, place).to_string(alloc)?;
    put_row(writer, round, b"leg", flight, nights.as_bytes())
}

/// Writes the nights after a leg of a tour: those in its flight and its turn, and those in the wait that follows.
fn put_nights(
    writer: &mut Writer<Vec<u8>>,
    round: Round<'_>,
    tables: &Tables,
    fleet: u32,
    tour: &[u32],
    place: usize,
) -> Result<(), NoMemory>
    requires between { IsBetweenRecords writer.old }
    requires fleet { fleet < fleets_in tables.now }
    requires tour { AreListed tables.now tour.now }
    requires place { place < length tour.now }
    ensures { OnOk result (HasRows writer.old writer.new round.entry (map (night_row tables.now) (nights_in_turn tables.now fleet (turn_after tour.now place)))) }
{
    let leg = tour[place];
    let aloft = nights_aloft(tables, fleet, leg);
    let waited = nights_after(tables, fleet, tour, place) - aloft;
    let station = tables.station(tables.leg(leg).to);
    put_same(writer, round, aloft, b"-", b"aloft")?;
    let short = is_short(tables, fleet, turn_after(tour, place));
    let word = night_word(station.maintenance, short);
    put_same(writer, round, waited, station.code.as_slice(), word)
}

/// The nights in the flight and the turn of a leg.
fn nights_aloft(tables: &Tables, fleet: u32, leg: u32) -> u32
    requires fleet { fleet < fleets_in tables.now }
    requires leg { leg < legs_in tables.now }
    ensures value { result ≡ nights_of tables.now (leg_on leg fleet) }
    ensures few { result ≤ 2 }
{
    tables.nights(flight(tables, leg, fleet))
}

/// What a night at a station is told as, by whether the station maintains, and whether the stay is too short for it.
fn night_word(maintenance: bool, short: bool) -> &'static [u8]
    ensures { result.now ≡ (if short then short_no maintenance else yes_no maintenance) }
{
    if !maintenance {
        b"no"
    } else if short {
        b"short"
    } else {
        b"yes"
    }
}

/// Writes one night so many times.
fn put_same(
    writer: &mut Writer<Vec<u8>>,
    round: Round<'_>,
    count: u32,
    a: &[u8],
    b: &[u8],
) -> Result<(), NoMemory>
    requires between { IsBetweenRecords writer.old }
    ensures { OnOk result (HasRows writer.old writer.new round.entry (replicate count (record { kind = codes "night"; a = a.now; b = b.now }))) }
{
    for _ in 0..count {
        put_row(writer, round, b"night", a, b)?;
    }
    Ok(())
}
