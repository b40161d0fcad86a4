ghost use Rattle.std.specs.Prelude.{IfOk, MatchResult};
ghost use Rattle.csv_fields.specs.Record.{records_of};
ghost use Rattle.fleet_model.specs.Limits.{AreFleets};
ghost use Rattle.fleet_model.specs.declared.refusals.TableFile.TheVariants as file;
ghost use Rattle.table_rows.specs.fleet_tables.Fleets.{FleetsBad, FleetsRead, fleet_name_of, fleet_read};
ghost use Rattle.table_rows.specs.Outcome.{IsFirstFault};

use crate::{Names, RecordError, RowReader, is_text, natural, read_table, three_fields};
use csv_fields::fleet_name;
use entries::Entries;
use fleet_model::limits::{MAX_AIRCRAFT, MAX_FLEETS, MAX_GROUND_MINUTES};
use fleet_model::refusals::{DUPLICATE, NOT_TEXT, TOO_MANY, WRONG_WIDTH};
use fleet_model::{Fleet, LoadError, TableFile};
use std::alloc::Global;

/// The header of `fleets.csv`.
const HEADER: [&[u8]; 3] = [b"fleet", b"aircraft", b"turn"];

/// The fleets of `fleets.csv`, in the order of its records, or the first fault of the file.
pub fn read_fleets(alloc: Global, bytes: &[u8]) -> Result<Vec<Fleet>, LoadError>
    ensures reads { MatchResult result (λ fleets. FleetsRead (records_of bytes.now) fleets.items)
        (IsFirstFault file.Fleets (FleetsBad (records_of bytes.now))) }
    ensures kept { IfOk result (λ fleets. AreFleets fleets.items) }
{
    let mut reader = FleetReader {
        names: Names::new(alloc),
    };
    read_table(alloc, TableFile::Fleets, &HEADER, &mut reader, bytes)
}

/// Reads the records of `fleets.csv`.
#[derive(Drop)]
struct FleetReader {
    names: Names,
}

impl RowReader for FleetReader {
    type Entry = Fleet;

    ghost key = { fleet_name_of };

    ghost keys = { λ reader. reader.names };

    ghost read = { λ _. fleet_read };

    #[tactic(auto, unfolding(crate::specs::fleet_tables::Fleets::fleet_read))]
    fn read_row(&mut self, alloc: Global, row: &[Vec<u8>]) -> Result<Fleet, RecordError> {
        let Some((name, aircraft, turn)) = three_fields(row) else {
            return Err(RecordError::Bad { kind: WRONG_WIDTH });
        };
        if !(is_text(name) && is_text(aircraft) && is_text(turn)) {
            return Err(RecordError::Bad { kind: NOT_TEXT });
        }
        fleet_name(name)?;
        let aircraft = natural(aircraft, MAX_AIRCRAFT)?;
        let turn = natural(turn, u32::from(MAX_GROUND_MINUTES))?;
        let earlier = self.names.len();
        if !self.names.add(alloc, name)? {
            return Err(RecordError::Bad { kind: DUPLICATE });
        }
        if earlier >= MAX_FLEETS {
            return Err(RecordError::Bad { kind: TOO_MANY });
        }
        Ok(Fleet {
            name: Entries::from_vec(Vec::from_slice(alloc, name)?),
            aircraft,
            turn: turn as u16,
        })
    }
}
