//! The records of rotations, written by `csv`.
ghost use Rattle.std.specs.Prelude.{◌≡◌, ◌<◌, [], ◌∷◌, IfOk, IfSome, OnOk, map};
ghost use Rattle.fleet_model.specs.Schedule.{fleets_in};
ghost use Rattle.plan_text.specs.CsvText.{HasWritten, IsBetweenRecords, csv_text, written_text};
ghost use Rattle.rotation_report.specs.RoundRows.{HasRows};
ghost use Rattle.rotation_report.specs.RotationRecords.{apart_rows, fleet_records, listed_row, pair_row, rotation_header, rotation_records, rotation_rows, rotation_text, second_round, spent_rows};
ghost use Rattle.euler_rotation.specs.FleetRotations.{AreConnections, AreListed, AreRotations, IsFleetRotation, IsOfLegs};

use crate::record_writer::{Round, put_numbers, put_record, put_row, want_of_memory};
use crate::tour_records::put_tour;
use csv::{Writer, WriterBuilder};
use entries::NoMemory;
use euler_rotation::{FleetRotation, Rotation};
use fleet_model::{Connection, Tables};
use std::alloc::Global;

/// The text of rotations, as `rotation.csv` holds it, where the search had so many visits: the header, and of each fleet
/// the round with its chosen through pairs, then the one without them where these were given up.
pub fn rotation_csv(
    alloc: Global,
    tables: &Tables,
    rotations: &[FleetRotation],
    visits: u64,
) -> Result<Vec<u8>, NoMemory>
    requires { AreRotations tables.now rotations.now }
    ensures { IfOk result (λ text. text.items ≡ rotation_text tables.now rotations.now visits) }
{
    let mut writer = WriterBuilder::new().from_writer(Vec::new(alloc));
    put_record(
        &mut writer,
        &[
            b"fleet".as_slice(),
            b"round".as_slice(),
            b"kind".as_slice(),
            b"a".as_slice(),
            b"b".as_slice(),
        ],
    )?;
    put_fleets(alloc, &mut writer, tables, rotations, visits)?;
    match writer.into_inner() {
        Ok(text) => Ok(text),
        Err(error) => Err(want_of_memory(error.into_error())),
    }
}

/// Writes the rounds of all fleets, behind the header.
fn put_fleets(
    alloc: Global,
    writer: &mut Writer<Vec<u8>>,
    tables: &Tables,
    rotations: &[FleetRotation],
    visits: u64,
) -> Result<(), NoMemory>
    requires between { IsBetweenRecords writer.old }
    requires header { written_text writer.old ≡ csv_text (rotation_header ∷ []) }
    requires rotations { AreRotations tables.now rotations.now }
    ensures between { OnOk result (IsBetweenRecords writer.new) }
    ensures text { OnOk result (written_text writer.new ≡ csv_text (rotation_records tables.now rotations.now visits)) }
{
    for fleet in 0..rotations.len() as u32 {
        let made = &rotations[fleet as usize];
        put_fleet(alloc, writer, tables, made, fleet, visits)?;
    }
    Ok(())
}

/// Writes the rounds of a fleet.
fn put_fleet(
    alloc: Global,
    writer: &mut Writer<Vec<u8>>,
    tables: &Tables,
    made: &FleetRotation,
    fleet: u32,
    visits: u64,
) -> Result<(), NoMemory>
    requires between { IsBetweenRecords writer.old }
    requires fleet { fleet < fleets_in tables.now }
    requires made { IsFleetRotation tables.now made.now }
    ensures { OnOk result (HasWritten writer.old writer.new (fleet_records tables.now visits made.now fleet)) }
{
    let first = Round {
        name: tables.fleet(fleet).name.as_slice(),
        number: b"1",
    };
    put_pairs(writer, first, tables, made.pairs.as_slice())?;
    put_rotation(alloc, writer, first, tables, fleet, &made.first, visits)?;
    put_second(alloc, writer, tables, fleet, &made.second, visits)
}

/// Writes the round without through pairs, where there is one.
fn put_second(
    alloc: Global,
    writer: &mut Writer<Vec<u8>>,
    tables: &Tables,
    fleet: u32,
    second: &Option<Rotation>,
    visits: u64,
) -> Result<(), NoMemory>
    requires between { IsBetweenRecords writer.old }
    requires fleet { fleet < fleets_in tables.now }
    requires legs { IfSome second.now (IsOfLegs tables.now) }
    ensures { OnOk result (HasWritten writer.old writer.new (second_round tables.now fleet visits second.now)) }
{
    match second {
        Some(rotation) => {
            let round = Round {
                name: tables.fleet(fleet).name.as_slice(),
                number: b"2",
            };
            put_rotation(alloc, writer, round, tables, fleet, rotation, visits)
        }
        None => Ok(()),
    }
}

/// Writes through pairs.
fn put_pairs(
    writer: &mut Writer<Vec<u8>>,
    round: Round<'_>,
    tables: &Tables,
    pairs: &[Connection],
) -> Result<(), NoMemory>
    requires between { IsBetweenRecords writer.old }
    requires pairs { AreConnections tables.now pairs.now }
    ensures { OnOk result (HasRows writer.old writer.new round.entry (map (pair_row tables.now) pairs.now)) }
{
    for pair in pairs {
        let arriving = tables.leg(pair.arriving).flight.as_slice();
        let departing = tables.leg(pair.departing).flight.as_slice();
        put_row(writer, round, b"pair", arriving, departing)?;
    }
    Ok(())
}

/// Writes what becomes of a rotation.
fn put_rotation(
    alloc: Global,
    writer: &mut Writer<Vec<u8>>,
    round: Round<'_>,
    tables: &Tables,
    fleet: u32,
    rotation: &Rotation,
    visits: u64,
) -> Result<(), NoMemory>
    requires between { IsBetweenRecords writer.old }
    requires fleet { fleet < fleets_in tables.now }
    requires legs { IsOfLegs tables.now rotation.now }
    ensures { OnOk result (HasRows writer.old writer.new round.entry (rotation_rows tables.now fleet visits rotation.now)) }
{
    match rotation {
        Rotation::Unused => put_row(writer, round, b"unused", b"0", b"0"),
        Rotation::TooFewNights { have, used } => {
            let (have, used) = (u64::from(*have), u64::from(*used));
            put_numbers(alloc, writer, round, b"nights", have, used)
        }
        Rotation::Apart { legs } => put_apart(alloc, writer, round, tables, legs.as_slice()),
        Rotation::Tour(tour) => put_tour(alloc, writer, round, tables, fleet, tour.as_slice()),
        Rotation::None => put_row(writer, round, b"none", b"0", b"0"),
        Rotation::Spent { order, prefix } => put_spent(
            alloc,
            writer,
            round,
            tables,
            order.as_slice(),
            prefix.as_slice(),
            visits,
        ),
    }
}

/// Writes that legs are apart, and the legs.
fn put_apart(
    alloc: Global,
    writer: &mut Writer<Vec<u8>>,
    round: Round<'_>,
    tables: &Tables,
    legs: &[u32],
) -> Result<(), NoMemory>
    requires between { IsBetweenRecords writer.old }
    requires legs { AreListed tables.now legs.now }
    ensures { OnOk result (HasRows writer.old writer.new round.entry (apart_rows tables.now legs.now)) }
{
    put_numbers(alloc, writer, round, b"apart", legs.len() as u64, 0)?;
    put_legs(writer, round, b"leg", tables, legs)
}

/// Writes that the search was given up, its order, and the last prefix that it visited.
fn put_spent(
    alloc: Global,
    writer: &mut Writer<Vec<u8>>,
    round: Round<'_>,
    tables: &Tables,
    order: &[u32],
    prefix: &[u32],
    visits: u64,
) -> Result<(), NoMemory>
    requires between { IsBetweenRecords writer.old }
    requires order { AreListed tables.now order.now }
    requires prefix { AreListed tables.now prefix.now }
    ensures { OnOk result (HasRows writer.old writer.new round.entry (spent_rows tables.now visits order.now prefix.now)) }
{
    put_numbers(alloc, writer, round, b"visits", visits, prefix.len() as u64)?;
    put_legs(writer, round, b"order", tables, order)?;
    put_legs(writer, round, b"leg", tables, prefix)
}

/// Writes the legs of a list.
fn put_legs(
    writer: &mut Writer<Vec<u8>>,
    round: Round<'_>,
    kind: &[u8],
    tables: &Tables,
    legs: &[u32],
) -> Result<(), NoMemory>
    requires between { IsBetweenRecords writer.old }
    requires legs { AreListed tables.now legs.now }
    ensures { OnOk result (HasRows writer.old writer.new round.entry (map (listed_row kind.now tables.now) legs.now)) }
{
    for leg in legs {
        put_row(
            writer,
            round,
            kind,
            tables.leg(*leg).flight.as_slice(),
            b"0",
        )?;
    }
    Ok(())
}
