ghost use Rattle.std.specs.Prelude.{◌≡◌, ◌≢◌, ◌≤◌, [], AllPairs, IfOk, MatchResult, length, map};
ghost use Rattle.csv_fields.specs.Record.{records_of};
ghost use Rattle.fleet_model.specs.Limits.{AreCosts};
ghost use Rattle.fleet_model.specs.declared.limits.TheConstants.{MAX_FLEETS, MAX_LEGS};
ghost use Rattle.fleet_model.specs.declared.refusals.TableFile.TheVariants as file;
ghost use Rattle.table_rows.specs.fleet_tables.Costs.{CostsBad, CostsRead, cost_key, cost_read, flight_of};
ghost use Rattle.table_rows.specs.fleet_tables.Fleets.{fleet_name_of};
ghost use Rattle.table_rows.specs.Outcome.{IsFirstFault};

use crate::{
    Names, NumberPairs, RecordError, RowReader, is_text, numbers_of, read_table, three_fields,
};
use csv_fields::{fleet_name, flight_name, whole};
use entries::NoMemory;
use fleet_model::limits::MAX_COST;
use fleet_model::refusals::{DUPLICATE, NOT_TEXT, UNKNOWN_FLEET, UNKNOWN_FLIGHT, WRONG_WIDTH};
use fleet_model::{Fleet, Leg, LoadError, PairCost, TableFile};
use std::alloc::Global;

/// The header of `costs.csv`.
const HEADER: [&[u8]; 3] = [b"flight", b"fleet", b"cost"];

/// The costs of `costs.csv`, in the order of its records, by the numbers of legs and fleets, or the first fault
/// of the file. The legs' flights differ from one another, and so do the fleets' names.
pub fn read_costs(
    alloc: Global,
    bytes: &[u8],
    legs: &[Leg],
    fleets: &[Fleet],
) -> Result<Vec<PairCost>, LoadError>
    requires few_legs { length legs.now ≤ MAX_LEGS }
    requires few_fleets { length fleets.now ≤ MAX_FLEETS }
    requires flights { AllPairs (λ a b. a.flight ≢ b.flight) legs.now }
    requires names { AllPairs (λ a b. a.name ≢ b.name) fleets.now }
    ensures reads { MatchResult result (λ costs. CostsRead (map flight_of legs.now) (map fleet_name_of fleets.now) (records_of bytes.now) costs.items)
        (IsFirstFault file.Costs (CostsBad (map flight_of legs.now) (map fleet_name_of fleets.now) (records_of bytes.now))) }
    ensures kept { IfOk result (λ costs. AreCosts (length legs.now) (length fleets.now) costs.items) }
{
    let mut reader = CostReader::new(alloc, legs, fleets)?;
    read_table(alloc, TableFile::Costs, &HEADER, &mut reader, bytes)
}

/// Reads the records of `costs.csv`, by the names of legs and fleets.
#[derive(Drop)]
struct CostReader {
    flights: Names,
    fleets: Names,
    pairs: NumberPairs,
    ghost few_flights: { length flights ≤ MAX_LEGS },
    ghost few_fleets: { length fleets ≤ MAX_FLEETS },
}

impl CostReader {
    /// No cost yet.
    fn new(alloc: Global, legs: &[Leg], fleets: &[Fleet]) -> Result<Self, NoMemory>
        requires few_legs { length legs.now ≤ MAX_LEGS }
        requires few_fleets { length fleets.now ≤ MAX_FLEETS }
        requires flights { AllPairs (λ a b. a.flight ≢ b.flight) legs.now }
        requires names { AllPairs (λ a b. a.name ≢ b.name) fleets.now }
        ensures flights { IfOk result (λ reader. reader.flights ≡ map flight_of legs.now) }
        ensures fleets { IfOk result (λ reader. reader.fleets ≡ map fleet_name_of fleets.now) }
        ensures none { IfOk result (λ reader. reader.pairs ≡ []) }
    {
        Ok(CostReader {
            flights: numbers_of(alloc, legs)?,
            fleets: numbers_of(alloc, fleets)?,
            pairs: NumberPairs::new(alloc),
        })
    }
}

impl RowReader for CostReader {
    type Entry = PairCost;

    ghost key = { cost_key };

    ghost keys = { λ reader. reader.pairs };

    ghost read = { λ reader. cost_read reader.flights reader.fleets };

    #[tactic(auto, unfolding(crate::specs::fleet_tables::Costs::cost_read))]
    fn read_row(&mut self, _: Global, row: &[Vec<u8>]) -> Result<PairCost, RecordError> {
        let Some((flight, fleet, cost)) = three_fields(row) else {
            return Err(RecordError::Bad { kind: WRONG_WIDTH });
        };
        if !(is_text(flight) && is_text(fleet) && is_text(cost)) {
            return Err(RecordError::Bad { kind: NOT_TEXT });
        }
        flight_name(flight)?;
        fleet_name(fleet)?;
        let cost = whole(cost, -MAX_COST, MAX_COST)?;
        let Some(leg) = self.flights.number(flight) else {
            return Err(RecordError::Bad {
                kind: UNKNOWN_FLIGHT,
            });
        };
        let Some(fleet) = self.fleets.number(fleet) else {
            return Err(RecordError::Bad {
                kind: UNKNOWN_FLEET,
            });
        };
        let leg = leg as u32;
        let fleet = fleet as u32;
        if !self.pairs.add(leg, fleet)? {
            return Err(RecordError::Bad { kind: DUPLICATE });
        }
        Ok(PairCost { leg, fleet, cost })
    }
}
