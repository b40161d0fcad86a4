//! The table of stations.

ghost use Rattle.std.specs.Prelude.{◌≡◌, IfOk, MatchResult, option_map};
ghost use Rattle.csv_fields.specs.Record.{records_of};
ghost use Rattle.fleet_model.specs.Limits.{AreStations};
ghost use Rattle.fleet_model.specs.declared.refusals.TableFile.TheVariants as file;
ghost use Rattle.table_rows.specs.station_table.Stations.{StationsBad, StationsRead, code_of, limit_read, station_fields, station_read};
ghost use Rattle.table_rows.specs.Outcome.{IsFirstFault};
ghost use Rattle.table_rows.specs.Rows.{RowsBad, RowsRead, fields_in, rows_in};

use crate::{
    Form, Names, RecordError, RowReader, below_either, four_fields, is_text, natural, read_rows,
    three_fields, without_header,
};
use csv_fields::{FieldFault, records, station_code, yes_no};
use entries::Entries;
use fleet_model::limits::{MAX_GROUND_MINUTES, MAX_PARKING, MAX_STATIONS};
use fleet_model::refusals::{DUPLICATE, NOT_TEXT, TOO_MANY, WRONG_WIDTH};
use fleet_model::{LoadError, Station, TableFile};
use std::alloc::Global;

/// The header of `stations.csv` where no station has a limit of parking.
const HEADER: [&[u8]; 3] = [b"code", b"extra", b"maintenance"];

/// Its header where stations may have one.
const PARKING_HEADER: [&[u8]; 4] = [b"code", b"extra", b"maintenance", b"parking"];

/// What stands for the limit of a station that has none.
const NO_LIMIT: &[u8] = b"-";

/// The stations of `stations.csv`, in the order of its records, or the first fault of the file. By a header without
/// parking no station has a limit.
pub fn read_stations(alloc: Global, bytes: &[u8]) -> Result<Vec<Station>, LoadError>
    ensures reads { MatchResult result (λ stations. StationsRead (records_of bytes.now) stations.items)
        (IsFirstFault file.Stations (StationsBad (records_of bytes.now))) }
    ensures kept { IfOk result (λ stations. AreStations stations.items) }
{
    let records = records(alloc, bytes)?;
    match below_either(&records, &HEADER, &PARKING_HEADER, true) {
        Some((form, rows)) => stations_below(alloc, form, rows),
        None => Err(without_header(TableFile::Stations)),
    }
}

/// The stations of the records below a header of this form, or the first fault of these.
fn stations_below(
    alloc: Global,
    form: Form,
    rows: &[Vec<Vec<u8>>],
) -> Result<Vec<Station>, LoadError>
    ensures reads { MatchResult result (λ stations. RowsRead code_of (station_read form) (rows_in rows.now) stations.items)
        (IsFirstFault file.Stations (RowsBad code_of (station_read form) (rows_in rows.now))) }
    ensures kept { IfOk result (λ stations. AreStations stations.items) }
{
    let mut reader = StationReader {
        form,
        codes: Names::new(alloc),
    };
    read_rows(alloc, TableFile::Stations, &mut reader, rows)
}

/// Reads the records of `stations.csv` below its header.
#[derive(Drop)]
struct StationReader {
    form: Form,
    codes: Names,
}

impl RowReader for StationReader {
    type Entry = Station;

    ghost key = { code_of };

    ghost keys = { λ reader. reader.codes };

    ghost read = { λ reader. station_read reader.form };

    #[tactic(auto, unfolding(crate::specs::station_table::Stations::station_read))]
    fn read_row(&mut self, alloc: Global, row: &[Vec<u8>]) -> Result<Station, RecordError> {
        let Some((code, extra, flag, parking)) = station_fields(self.form, row) else {
            return Err(RecordError::Bad { kind: WRONG_WIDTH });
        };
        if !(is_text(code) && is_text(extra) && is_text(flag) && is_text(parking)) {
            return Err(RecordError::Bad { kind: NOT_TEXT });
        }
        station_code(code)?;
        let extra = natural(extra, u32::from(MAX_GROUND_MINUTES))?;
        let maintenance = yes_no(flag)?;
        let parking = limit(parking)?;
        let earlier = self.codes.len();
        if !self.codes.add(alloc, code)? {
            return Err(RecordError::Bad { kind: DUPLICATE });
        }
        if earlier >= MAX_STATIONS {
            return Err(RecordError::Bad { kind: TOO_MANY });
        }
        Ok(Station {
            code: Entries::from_vec(Vec::from_slice(alloc, code)?),
            extra: extra as u16,
            maintenance,
            parking,
        })
    }
}

/// The fields of a record in this form: code, extra, maintenance and parking.
fn station_fields(form: Form, row: &[Vec<u8>]) -> Option<(&[u8], &[u8], &[u8], &[u8])>
    ensures { option_map (λ f. (f.0.now, f.1.now, f.2.now, f.3.now)) result ≡ station_fields form (fields_in row.now) }
{
    match form {
        Form::Old => {
            let (code, extra, flag) = three_fields(row)?;
            Some((code, extra, flag, NO_LIMIT))
        }
        Form::New => four_fields(row),
    }
}

/// The limit of parking that a field writes, and none where it says that there is none.
fn limit(field: &[u8]) -> Result<Option<u32>, FieldFault>
    ensures { result ≡ limit_read field.now }
{
    match field {
        b"-" => Ok(None),
        _ => Ok(Some(natural(field, MAX_PARKING)?)),
    }
}
