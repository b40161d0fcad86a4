ghost use Rattle.std.specs.Prelude.{◌≡◌, ◌≢◌, ◌≤◌, ◌<◌, [], AllPairs, IfOk, MatchResult, length, map, option_map};
ghost use Rattle.std.specs.List.{list_all};
ghost use Rattle.std.specs.Str.{is_utf8};
ghost use Rattle.table_rows.specs.fleet_tables.Costs.{flight_of};
ghost use Rattle.csv_fields.specs.Record.{records_of};
ghost use Rattle.fleet_model.specs.Limits.{AreLegs, AreSettings};
ghost use Rattle.fleet_model.specs.declared.limits.TheConstants.{MAX_STATIONS, MINUTES_PER_DAY};
ghost use Rattle.fleet_model.specs.declared.refusals.TableFile.TheVariants as file;
ghost use Rattle.sched_read.specs.Legs.{ArePlain, LegsBad, LegsRead, block_between, day_read, from_period_start, leg_fields, leg_read};
ghost use Rattle.table_rows.specs.station_table.Stations.{code_of};
ghost use Rattle.table_rows.specs.Outcome.{IsFirstFault};
ghost use Rattle.table_rows.specs.Rows.{RowsBad, RowsRead, fields_in, rows_in};

use csv_fields::{FieldFault, clock_time, flight_name, records, station_code, whole};
use entries::{Entries, NoMemory};
use fleet_model::limits::{MAX_LEGS, MINUTES_PER_DAY};
use fleet_model::refusals::{
    DUPLICATE, NOT_TEXT, TO_ITSELF, TOO_MANY, UNKNOWN_STATION, WRONG_WIDTH, ZERO_BLOCK,
};
use fleet_model::{Leg, LoadError, Settings, Shifts, Station, TableFile};
use std::alloc::Global;
use table_rows::{
    Form, Names, RecordError, RowReader, below_either, five_fields, is_text, numbers_of, read_rows,
    without_header,
};

/// The header of `legs.csv` for a period of one day.
const HEADER: [&[u8]; 5] = [b"flight", b"from", b"dep", b"to", b"arr"];

/// Its header for a period of any length.
const DATED_HEADER: [&[u8]; 6] = [b"flight", b"day", b"from", b"dep", b"to", b"arr"];

/// The day of a record that has none.
const FIRST_DAY: &[u8] = b"1";

/// The legs of `legs.csv`, in the order of its records, by the numbers of stations, or the first fault of the
/// file. The stations' codes differ from one another. A header without days is one of a period of one day.
pub fn read_legs(
    alloc: Global,
    bytes: &[u8],
    stations: &[Station],
    settings: Settings,
) -> Result<Vec<Leg>, LoadError>
    requires few { length stations.now ≤ MAX_STATIONS }
    requires stations { AllPairs (λ a b. a.code ≢ b.code) stations.now }
    requires settings { AreSettings settings }
    ensures reads { MatchResult result (λ legs. LegsRead (map code_of stations.now) settings (records_of bytes.now) legs.items)
        (IsFirstFault file.Legs (LegsBad (map code_of stations.now) settings (records_of bytes.now))) }
    ensures kept { IfOk result (λ legs. AreLegs (length stations.now) settings.period legs.items) }
    ensures plain { IfOk result (λ legs. ArePlain legs.items) }
{
    let records = records(alloc, bytes)?;
    match below_either(&records, &HEADER, &DATED_HEADER, settings.period == 1) {
        Some((form, rows)) => legs_below(alloc, form, rows, stations, settings),
        None => Err(without_header(TableFile::Legs)),
    }
}

/// The legs of the records below a header of this form, or the first fault of these.
fn legs_below(
    alloc: Global,
    form: Form,
    rows: &[Vec<Vec<u8>>],
    stations: &[Station],
    settings: Settings,
) -> Result<Vec<Leg>, LoadError>
    requires few { length stations.now ≤ MAX_STATIONS }
    requires stations { AllPairs (λ a b. a.code ≢ b.code) stations.now }
    requires settings { AreSettings settings }
    ensures reads { let read = leg_read (map code_of stations.now) settings form in
        MatchResult result (λ legs. RowsRead flight_of read (rows_in rows.now) legs.items)
        (IsFirstFault file.Legs (RowsBad flight_of read (rows_in rows.now))) }
    ensures kept { IfOk result (λ legs. AreLegs (length stations.now) settings.period legs.items) }
    ensures plain { IfOk result (λ legs. ArePlain legs.items) }
{
    let mut reader = LegReader::new(alloc, form, stations, settings)?;
    read_rows(alloc, TableFile::Legs, &mut reader, rows)
}

/// Reads the records of `legs.csv` below its header, by the codes of stations.
#[derive(Drop)]
struct LegReader {
    form: Form,
    codes: Names,
    settings: Settings,
    flights: Names,
    ghost few: { length codes ≤ MAX_STATIONS },
    ghost in_range: { AreSettings settings },
}

impl LegReader {
    /// No leg yet.
    fn new(
        alloc: Global,
        form: Form,
        stations: &[Station],
        settings: Settings,
    ) -> Result<Self, NoMemory>
        requires few { length stations.now ≤ MAX_STATIONS }
        requires stations { AllPairs (λ a b. a.code ≢ b.code) stations.now }
        requires settings { AreSettings settings }
        ensures form { IfOk result (λ reader. reader.form ≡ form) }
        ensures codes { IfOk result (λ reader. reader.codes ≡ map code_of stations.now) }
        ensures settings { IfOk result (λ reader. reader.settings ≡ settings) }
        ensures none { IfOk result (λ reader. reader.flights ≡ []) }
    {
        Ok(LegReader {
            form,
            codes: numbers_of(alloc, stations)?,
            settings,
            flights: Names::new(alloc),
        })
    }
}

impl RowReader for LegReader {
    type Entry = Leg;

    ghost key = { flight_of };

    ghost keys = { λ reader. reader.flights };

    ghost read = { λ reader. leg_read reader.codes reader.settings reader.form };

    #[tactic(auto, unfolding(crate::specs::Legs::leg_read))]
    fn read_row(&mut self, alloc: Global, row: &[Vec<u8>]) -> Result<Leg, RecordError> {
        let Some((flight, day, from, dep, to, arr)) = leg_fields(self.form, row) else {
            return Err(RecordError::Bad { kind: WRONG_WIDTH });
        };
        if !are_text(row) {
            return Err(RecordError::Bad { kind: NOT_TEXT });
        }
        flight_name(flight)?;
        let day = day_in(self.settings, day)?;
        station_code(from)?;
        let leaves = clock_time(dep)?;
        station_code(to)?;
        let lands = clock_time(arr)?;
        let earlier = self.flights.len();
        if !self.flights.add(alloc, flight)? {
            return Err(RecordError::Bad { kind: DUPLICATE });
        }
        let (Some(from), Some(to)) = (self.codes.number(from), self.codes.number(to)) else {
            return Err(RecordError::Bad {
                kind: UNKNOWN_STATION,
            });
        };
        let block = block(leaves, lands);
        if block == 0 {
            return Err(RecordError::Bad { kind: ZERO_BLOCK });
        }
        if from == to {
            return Err(RecordError::Bad { kind: TO_ITSELF });
        }
        if earlier >= MAX_LEGS {
            return Err(RecordError::Bad { kind: TOO_MANY });
        }
        let dep = minute(self.settings, day, leaves);
        Ok(Leg {
            flight: Entries::from_vec(Vec::from_slice(alloc, flight)?),
            from: from as u32,
            dep,
            to: to as u32,
            block,
            shifts: Shifts::own(dep),
            skip: None,
        })
    }
}

/// Whether all fields of a record are UTF-8.
fn are_text(row: &[Vec<u8>]) -> bool
    ensures { result ≡ list_all is_utf8 (fields_in row.now) }
{
    match row.split_first() {
        Some((field, rest)) => is_text(field) && are_text(rest),
        None => true,
    }
}

/// The fields of a record in this form: flight, day, from, dep, to and arr.
fn leg_fields(form: Form, row: &[Vec<u8>]) -> Option<(&[u8], &[u8], &[u8], &[u8], &[u8], &[u8])>
    ensures { option_map (λ f. (f.0.now, f.1.now, f.2.now, f.3.now, f.4.now, f.5.now)) result ≡ leg_fields form (fields_in row.now) }
{
    match form {
        Form::Old => {
            let (flight, from, dep, to, arr) = five_fields(row)?;
            Some((flight, FIRST_DAY, from, dep, to, arr))
        }
        Form::New => {
            let (flight, rest) = row.split_first()?;
            let (day, from, dep, to, arr) = five_fields(rest)?;
            Some((flight.as_slice(), day, from, dep, to, arr))
        }
    }
}

/// The day of the period that a field writes, counted from 1.
fn day_in(settings: Settings, field: &[u8]) -> Result<u16, FieldFault>
    requires { AreSettings settings }
    ensures reads { result ≡ day_read settings field.now }
    ensures within { IfOk result (λ day. (1 ≤ day) × (day ≤ settings.period)) }
{
    let day = whole(field, 1, i128::from(settings.period))?;
    Ok(day as u16)
}

/// The minutes from a departure to an arrival, both by the clock.
fn block(dep: u16, arr: u16) -> u16
    requires dep { dep < MINUTES_PER_DAY }
    requires arr { arr < MINUTES_PER_DAY }
    ensures value { result ≡ block_between dep arr }
    ensures within { result < MINUTES_PER_DAY }
{
    (arr + MINUTES_PER_DAY - dep) % MINUTES_PER_DAY
}

/// A clock minute of a day of the period, counted from the period's start.
fn minute(settings: Settings, day: u16, minute: u16) -> u16
    requires settings { AreSettings settings }
    requires some_day { 1 ≤ day }
    requires day { day ≤ settings.period }
    requires minute { minute < MINUTES_PER_DAY }
    ensures { result ≡ from_period_start settings day minute }
{
    let period = settings.minutes();
    ((day - 1) * MINUTES_PER_DAY + minute + period - settings.day_start) % period
}
