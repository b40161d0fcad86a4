//! The table of optional legs.
ghost use Rattle.std.specs.Prelude.{◌≡◌, ◌≤◌, [], IfOk, MatchResult, length, map};
ghost use Rattle.csv_fields.specs.Record.{records_of};
ghost use Rattle.fleet_model.specs.declared.limits.TheConstants.{MAX_LEGS};
ghost use Rattle.fleet_model.specs.declared.refusals.TableFile.TheVariants as file;
ghost use Rattle.table_rows.specs.fleet_tables.Costs.{flight_of};
ghost use Rattle.sched_read.specs.optional_legs.Optional.{AreOptional, OptionalBad, OptionalRead, optional_key, optional_read};
ghost use Rattle.table_rows.specs.Outcome.{IsFirstFault};

use crate::optional_legs::optional::{MAX_OPTIONAL, OptionalLeg};
use csv_fields::{flight_name, whole};
use entries::{Entries, NoMemory};
use fleet_model::limits::MAX_COST;
use fleet_model::refusals::{DUPLICATE, NOT_TEXT, TOO_MANY, UNKNOWN_FLIGHT, WRONG_WIDTH};
use fleet_model::{LoadError, TableFile, Tables};
use std::alloc::Global;
use table_rows::{Names, RecordError, RowReader, is_text, numbers_of, read_table, two_fields};

/// The header of `optional.csv`.
const HEADER: [&[u8]; 2] = [b"flight", b"skip"];

/// The legs of `optional.csv`, in the order of its records, by their numbers, or the first fault of the file.
pub fn read_optional(
    alloc: Global,
    tables: &Tables,
    bytes: &[u8],
) -> Result<Vec<OptionalLeg>, LoadError>
    ensures reads { MatchResult result (λ optional. OptionalRead tables.now (records_of bytes.now) optional.items)
        (IsFirstFault file.Optional (OptionalBad tables.now (records_of bytes.now))) }
    ensures kept { IfOk result (λ optional. AreOptional tables.now optional.items) }
{
    let mut reader = OptionalReader::new(alloc, tables)?;
    read_table(alloc, TableFile::Optional, &HEADER, &mut reader, bytes)
}

/// Reads the records of `optional.csv`, by the flights of legs.
#[derive(Drop)]
struct OptionalReader {
    flights: Names,
    optional: Names,
    ghost few_legs: { length flights ≤ MAX_LEGS },
}

impl OptionalReader {
    /// No optional leg yet.
    fn new(alloc: Global, tables: &Tables) -> Result<Self, NoMemory>
        ensures flights { IfOk result (λ reader. reader.flights ≡ map flight_of tables.now.legs) }
        ensures none { IfOk result (λ reader. reader.optional ≡ []) }
    {
        Ok(OptionalReader {
            flights: numbers_of(alloc, tables.legs.as_slice())?,
            optional: Names::new(alloc),
        })
    }
}

impl RowReader for OptionalReader {
    type Entry = OptionalLeg;

    ghost key = { optional_key };

    ghost keys = { λ reader. reader.optional };

    ghost read = { λ reader. optional_read reader.flights };

    #[tactic(auto, unfolding(crate::specs::optional_legs::Optional::optional_read))]
    fn read_row(&mut self, alloc: Global, row: &[Vec<u8>]) -> Result<OptionalLeg, RecordError> {
        let Some((flight, skip)) = two_fields(row) else {
            return Err(RecordError::Bad { kind: WRONG_WIDTH });
        };
        if !(is_text(flight) && is_text(skip)) {
            return Err(RecordError::Bad { kind: NOT_TEXT });
        }
        flight_name(flight)?;
        let skip = whole(skip, -MAX_COST, MAX_COST)?;
        let earlier = self.optional.len();
        if !self.optional.add(alloc, flight)? {
            return Err(RecordError::Bad { kind: DUPLICATE });
        }
        let Some(leg) = self.flights.number(flight) else {
            return Err(RecordError::Bad {
                kind: UNKNOWN_FLIGHT,
            });
        };
        if earlier >= MAX_OPTIONAL {
            return Err(RecordError::Bad { kind: TOO_MANY });
        }
        Ok(OptionalLeg {
            flight: Entries::from_vec(Vec::from_slice(alloc, flight)?),
            leg: leg as u32,
            skip,
        })
    }
}
