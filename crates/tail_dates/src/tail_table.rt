//! The table of tails, which is read beside a plan.
ghost use Rattle.std.specs.Prelude.{◌≡◌, ◌≤◌, [], IfOk, MatchResult, length, map, option_map};
ghost use Rattle.csv_fields.specs.Record.{records_of};
ghost use Rattle.fleet_model.specs.declared.limits.TheConstants.{MAX_FLEETS, MAX_LEGS, MAX_STATIONS};
ghost use Rattle.fleet_model.specs.declared.refusals.TableFile.TheVariants as file;
ghost use Rattle.table_rows.specs.fleet_tables.Costs.{flight_of};
ghost use Rattle.table_rows.specs.fleet_tables.Fleets.{fleet_name_of};
ghost use Rattle.table_rows.specs.station_table.Stations.{code_of};
ghost use Rattle.table_rows.specs.Outcome.{IsFaultOf, IsFirstFault};
ghost use Rattle.table_rows.specs.Rows.{RowsBad, RowsRead, fields_in, rows_in};
ghost use Rattle.tail_dates.specs.declared.tail_table.TheConstants.{MAX_NIGHTS_LEFT};
ghost use Rattle.tail_dates.specs.TailTable.{AreTailStates, TailsBad, TailsRead, at_form_of, at_of, nights_left_of, tail_beside, tail_fields, tail_name_of, tail_read};

use crate::tails::{Place, TailState};
use csv_fields::{FieldFault, fleet_name, flight_name, records, station_code, whole};
use entries::{Entries, NoMemory};
use fleet_model::refusals::{
    DUPLICATE, NOT_TEXT, TOO_MANY, UNKNOWN_FLEET, UNKNOWN_FLIGHT, UNKNOWN_STATION, WRONG_WIDTH,
};
use fleet_model::{LoadError, TableFile, Tables};
use std::alloc::Global;
use table_rows::{
    Form, Names, RecordError, RowReader, below_either, four_fields, is_text, numbers_of, read_rows,
    three_fields, without_header,
};

/// The most tails of `tails.csv`.
pub const MAX_TAILS: usize = 10_000;

/// The most nights that a tail may have left.
pub const MAX_NIGHTS_LEFT: u8 = 30;

/// The header of `tails.csv` that doesn't tell where tails are.
const HEADER: [&[u8]; 3] = [b"tail", b"fleet", b"left"];

/// Its header that does.
const PLACED_HEADER: [&[u8]; 4] = [b"tail", b"fleet", b"left", b"at"];

/// The tails of `tails.csv`, in the order of its records, or the first fault of the file. By a header without places it isn't
/// told where they are.
pub fn read_tails(alloc: Global, tables: &Tables, bytes: &[u8]) -> Result<Vec<TailState>, LoadError>
    ensures reads { MatchResult result (λ tails. TailsRead tables.now (records_of bytes.now) tails.items)
        (IsFirstFault file.Tails (TailsBad tables.now (records_of bytes.now))) }
    ensures kept { IfOk result (λ tails. AreTailStates tables.now tails.items) }
{
    let records = records(alloc, bytes)?;
    match below_either(&records, &HEADER, &PLACED_HEADER, true) {
        Some((form, rows)) => tails_below(alloc, form, tables, rows),
        None => Err(without_header(TableFile::Tails)),
    }
}

/// The tails of the records below a header of this form, or the first fault of these.
fn tails_below(
    alloc: Global,
    form: Form,
    tables: &Tables,
    rows: &[Vec<Vec<u8>>],
) -> Result<Vec<TailState>, LoadError>
    ensures reads { MatchResult result (λ tails. RowsRead tail_name_of (tail_beside tables.now form) (rows_in rows.now) tails.items)
        (IsFirstFault file.Tails (RowsBad tail_name_of (tail_beside tables.now form) (rows_in rows.now))) }
    ensures kept { IfOk result (λ tails. AreTailStates tables.now tails.items) }
{
    let mut reader = TailReader::new(alloc, form, tables)?;
    read_rows(alloc, TableFile::Tails, &mut reader, rows)
}

/// Reads the records of `tails.csv` below its header, by the names of fleets, stations and flights.
#[derive(Drop)]
struct TailReader {
    form: Form,
    fleets: Names,
    places: PlaceNames,
    tails: Names,
    ghost few_fleets: { length fleets ≤ MAX_FLEETS },
}

/// What places are called.
#[derive(Drop)]
struct PlaceNames {
    stations: Names,
    flights: Names,
    ghost few_stations: { length stations ≤ MAX_STATIONS },
    ghost few_flights: { length flights ≤ MAX_LEGS },
}

impl TailReader {
    /// No tail yet.
    fn new(alloc: Global, form: Form, tables: &Tables) -> Result<Self, NoMemory>
        ensures form { IfOk result (λ reader. reader.form ≡ form) }
        ensures fleets { IfOk result (λ reader. reader.fleets ≡ map fleet_name_of tables.now.fleets) }
        ensures stations { IfOk result (λ reader. reader.places.stations ≡ map code_of tables.now.stations) }
        ensures flights { IfOk result (λ reader. reader.places.flights ≡ map flight_of tables.now.legs) }
        ensures none { IfOk result (λ reader. reader.tails ≡ []) }
    {
        Ok(TailReader {
            form,
            places: PlaceNames::new(alloc, tables)?,
            fleets: numbers_of(alloc, tables.fleets.as_slice())?,
            tails: Names::new(alloc),
        })
    }
}

impl PlaceNames {
    /// Those of the tables.
    fn new(alloc: Global, tables: &Tables) -> Result<Self, NoMemory>
        ensures stations { IfOk result (λ names. names.stations ≡ map code_of tables.now.stations) }
        ensures flights { IfOk result (λ names. names.flights ≡ map flight_of tables.now.legs) }
    {
        Ok(PlaceNames {
            stations: numbers_of(alloc, tables.stations.as_slice())?,
            flights: numbers_of(alloc, tables.legs.as_slice())?,
        })
    }

    /// Where a tail is by a field of good form: three letters A to Z are a station, and any other name is a flight.
    fn read(&self, field: &[u8]) -> Result<Option<Place>, RecordError>
        ensures { MatchResult result (λ at. at_of self.now.stations self.now.flights field.now ≡ Ok at)
            (IsFaultOf (at_of self.now.stations self.now.flights field.now)) }
    {
        if field.is_empty() {
            return Ok(None);
        }
        if station_code(field).is_ok() {
            match self.stations.number(field) {
                Some(station) => Ok(Some(Place::Stands {
                    station: station as u32,
                })),
                None => Err(RecordError::Bad {
                    kind: UNKNOWN_STATION,
                }),
            }
        } else {
            match self.flights.number(field) {
                Some(leg) => Ok(Some(Place::Flies { leg: leg as u32 })),
                None => Err(RecordError::Bad {
                    kind: UNKNOWN_FLIGHT,
                }),
            }
        }
    }
}

impl RowReader for TailReader {
    type Entry = TailState;

    ghost key = { tail_name_of };

    ghost keys = { λ reader. reader.tails };

    ghost read = { λ reader. tail_read reader.fleets reader.places.stations reader.places.flights reader.form };

    #[tactic(auto, unfolding(crate::specs::TailTable::tail_read))]
    fn read_row(&mut self, alloc: Global, row: &[Vec<u8>]) -> Result<TailState, RecordError> {
        let Some((tail, fleet, left, at)) = tail_fields(self.form, row) else {
            return Err(RecordError::Bad { kind: WRONG_WIDTH });
        };
        if !(is_text(tail) && is_text(fleet) && is_text(left) && is_text(at)) {
            return Err(RecordError::Bad { kind: NOT_TEXT });
        }
        flight_name(tail)?;
        fleet_name(fleet)?;
        let left = nights_left(left)?;
        at_form(at)?;
        let earlier = self.tails.len();
        if !self.tails.add(alloc, tail)? {
            return Err(RecordError::Bad { kind: DUPLICATE });
        }
        let at = self.places.read(at)?;
        let Some(fleet) = self.fleets.number(fleet) else {
            return Err(RecordError::Bad {
                kind: UNKNOWN_FLEET,
            });
        };
        if earlier >= MAX_TAILS {
            return Err(RecordError::Bad { kind: TOO_MANY });
        }
        Ok(TailState {
            name: Entries::from_vec(Vec::from_slice(alloc, tail)?),
            fleet: fleet as u32,
            left,
            at,
        })
    }
}

/// The fields of a record in this form: tail, fleet, left and at.
fn tail_fields(form: Form, row: &[Vec<u8>]) -> Option<(&[u8], &[u8], &[u8], &[u8])>
    ensures { option_map (λ f. (f.0.now, f.1.now, f.2.now, f.3.now)) result ≡ tail_fields form (fields_in row.now) }
{
    match form {
        Form::Old => {
            let (tail, fleet, left) = three_fields(row)?;
            Some((tail, fleet, left, NOWHERE))
        }
        Form::New => four_fields(row),
    }
}

/// What stands for the place of a tail where it isn't told.
const NOWHERE: &[u8] = b"";

/// The nights left that a field writes.
fn nights_left(field: &[u8]) -> Result<u8, FieldFault>
    ensures reads { result ≡ nights_left_of field.now }
    ensures some { IfOk result (λ left. 1 ≤ left) }
    ensures few { IfOk result (λ left. left ≤ MAX_NIGHTS_LEFT) }
{
    let left = whole(field, 1, i128::from(MAX_NIGHTS_LEFT))?;
    Ok(left as u8)
}

/// Whether a field may say where a tail is: it is empty, or has the form of a flight.
fn at_form(field: &[u8]) -> Result<(), FieldFault>
    ensures { result ≡ at_form_of field.now }
{
    if field.is_empty() {
        return Ok(());
    }
    flight_name(field)
}
