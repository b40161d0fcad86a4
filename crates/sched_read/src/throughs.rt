ghost use Rattle.std.specs.Prelude.{◌≡◌, ◌≢◌, ◌≤◌, [], AllPairs, IfOk, MatchResult, length, map};
ghost use Rattle.table_rows.specs.fleet_tables.Costs.{flight_of};
ghost use Rattle.csv_fields.specs.Record.{records_of};
ghost use Rattle.fleet_model.specs.Limits.{AreThroughs};
ghost use Rattle.fleet_model.specs.declared.limits.TheConstants.{MAX_LEGS};
ghost use Rattle.fleet_model.specs.declared.refusals.TableFile.TheVariants as file;
ghost use Rattle.sched_read.specs.Throughs.{ThroughTableBad, ThroughTableReads, ThroughsBad, ThroughsRead, connection_of, through_read};
ghost use Rattle.table_rows.specs.Outcome.{IsFirstFault};

use csv_fields::{flight_name, whole};
use entries::NoMemory;
use fleet_model::limits::{MAX_COST, MAX_THROUGHS};
use fleet_model::refusals::{DUPLICATE, NOT_TEXT, TOO_MANY, UNKNOWN_FLIGHT, WRONG_WIDTH};
use fleet_model::{Leg, LoadError, TableFile, Through};
use std::alloc::Global;
use table_rows::{
    Names, NumberPairs, RecordError, RowReader, is_text, numbers_of, read_table, three_fields,
};

/// The header of `throughs.csv`.
const HEADER: [&[u8]; 3] = [b"in", b"out", b"value"];

/// The through pairs of `throughs.csv`, in the order of its records, by the numbers of legs, or the first fault
/// of the file. A file of zero bytes has none. The legs' flights differ from one another.
pub fn read_throughs(alloc: Global, bytes: &[u8], legs: &[Leg]) -> Result<Vec<Through>, LoadError>
    requires few { length legs.now ≤ MAX_LEGS }
    requires flights { AllPairs (λ a b. a.flight ≢ b.flight) legs.now }
    ensures reads { MatchResult result (λ throughs. ThroughsRead (map flight_of legs.now) bytes.now throughs.items)
        (IsFirstFault file.Throughs (ThroughsBad (map flight_of legs.now) bytes.now)) }
    ensures kept { IfOk result (λ throughs. AreThroughs (length legs.now) throughs.items) }
{
    if bytes.is_empty() {
        return Ok(Vec::new(alloc));
    }
    table_of(alloc, bytes, legs)
}

/// The through pairs of a file that has a header.
fn table_of(alloc: Global, bytes: &[u8], legs: &[Leg]) -> Result<Vec<Through>, LoadError>
    requires few { length legs.now ≤ MAX_LEGS }
    requires flights { AllPairs (λ a b. a.flight ≢ b.flight) legs.now }
    ensures reads { MatchResult result (λ throughs. ThroughTableReads (map flight_of legs.now) (records_of bytes.now) throughs.items)
        (IsFirstFault file.Throughs (ThroughTableBad (map flight_of legs.now) (records_of bytes.now))) }
    ensures kept { IfOk result (λ throughs. AreThroughs (length legs.now) throughs.items) }
{
    let mut reader = ThroughReader::new(alloc, legs)?;
    read_table(alloc, TableFile::Throughs, &HEADER, &mut reader, bytes)
}

/// Reads the records of `throughs.csv`, by the flights of legs.
#[derive(Drop)]
struct ThroughReader {
    flights: Names,
    connections: NumberPairs,
    ghost few: { length flights ≤ MAX_LEGS },
}

impl ThroughReader {
    /// No through pair yet.
    fn new(alloc: Global, legs: &[Leg]) -> Result<Self, NoMemory>
        requires few { length legs.now ≤ MAX_LEGS }
        requires flights { AllPairs (λ a b. a.flight ≢ b.flight) legs.now }
        ensures flights { IfOk result (λ reader. reader.flights ≡ map flight_of legs.now) }
        ensures none { IfOk result (λ reader. reader.connections ≡ []) }
    {
        Ok(ThroughReader {
            flights: numbers_of(alloc, legs)?,
            connections: NumberPairs::new(alloc),
        })
    }
}

impl RowReader for ThroughReader {
    type Entry = Through;

    ghost key = { connection_of };

    ghost keys = { λ reader. reader.connections };

    ghost read = { λ reader. through_read reader.flights };

    #[tactic(auto, unfolding(crate::specs::Throughs::through_read))]
    fn read_row(&mut self, _: Global, row: &[Vec<u8>]) -> Result<Through, RecordError> {
        let Some((arriving, departing, value)) = three_fields(row) else {
            return Err(RecordError::Bad { kind: WRONG_WIDTH });
        };
        if !(is_text(arriving) && is_text(departing) && is_text(value)) {
            return Err(RecordError::Bad { kind: NOT_TEXT });
        }
        flight_name(arriving)?;
        flight_name(departing)?;
        let value = whole(value, 0, MAX_COST)?;
        let Some(arriving) = self.flights.number(arriving) else {
            return Err(RecordError::Bad {
                kind: UNKNOWN_FLIGHT,
            });
        };
        let Some(departing) = self.flights.number(departing) else {
            return Err(RecordError::Bad {
                kind: UNKNOWN_FLIGHT,
            });
        };
        let arriving = arriving as u32;
        let departing = departing as u32;
        let earlier = self.connections.len();
        if !self.connections.add(arriving, departing)? {
            return Err(RecordError::Bad { kind: DUPLICATE });
        }
        if earlier >= MAX_THROUGHS {
            return Err(RecordError::Bad { kind: TOO_MANY });
        }
        Ok(Through {
            arriving,
            departing,
            value,
        })
    }
}
