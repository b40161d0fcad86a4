ghost use Rattle.std.specs.Prelude.{◌≡◌, ◌⊎◌, ◌+◌, ◌^◌, ◌<◌, ℕ, List, IfOk, MatchOption, MatchResult, Ok, Err, codes, option_map};
ghost use Rattle.csv_fields.specs.Record.{records_of};
ghost use Rattle.fleet_model.specs.Legal.{IsAssignment};
ghost use Rattle.fleet_model.specs.Schedule.{fleet_names, legs_in};
ghost use Rattle.plan_text.specs.Reading.{IsFirstPlanFault, IsFirstRowFault, PlanReads, choice_read, plan_refusal_at, texts_in};
ghost use Rattle.plan_text.specs.Text.{leg_records, record_of};
ghost use Rattle.plan_text.specs.declared.faults.PlanError.TheVariants as plan;
ghost use Rattle.table_rows.specs.Outcome.{IsFaultOf};
ghost use Rattle.table_rows.specs.Rows.{IsUnder, LacksHeader, fields_in, rows_in};

use crate::choices::choice_with;
use crate::faults::{
    PlanError, PlanFault, UNKNOWN_CHOICE, WRONG_COUNT, WRONG_FIELDS, WRONG_FLIGHT, WRONG_HEADER,
};
use crate::writing::OWN_TIME;
use csv_fields::records;
use fleet_model::{Assignment, Tables};
use std::alloc::Global;
use table_rows::{Names, RecordError, below_header, is_text, numbers_of, three_fields, two_fields};

/// The header of `plan.csv`.
const HEADER: [&[u8]; 2] = [b"flight", b"fleet"];

/// The header where legs may have other times than their own.
const HEADER_WITH_SHIFT: [&[u8]; 3] = [b"flight", b"fleet", b"shift"];

/// The assignment of `plan.csv`, which has the header and one record for each leg, in schedule order: its flight,
/// the name of its fleet or `-`, and where legs may have other times than their own the minutes by which it departs
/// later. Else the first fault of the text.
pub fn read_plan(alloc: Global, tables: &Tables, bytes: &[u8]) -> Result<Assignment, PlanError>
    ensures reads { MatchResult result (PlanReads tables.now (records_of bytes.now)) (IsFirstPlanFault tables.now (records_of bytes.now)) }
    ensures assignment { IfOk result (IsAssignment tables.now) }
    ensures complete { (a : List ℕ) → PlanReads tables.now (records_of bytes.now) a → (result ≡ Ok a) ⊎ (result ≡ Err plan.NoMemory) }
{
    let records = records(alloc, bytes)?;
    let Some(rows) = below_plan_header(tables.windows, &records) else {
        return Err(PlanError::Fault(PlanFault {
            row: 1,
            kind: WRONG_HEADER,
        }));
    };
    let fleets = numbers_of(alloc, tables.fleets.as_slice())?;
    choices_of(alloc, tables, &fleets, rows)
}

/// The records below the header, where it stands first.
fn below_plan_header(windows: bool, records: &[Vec<Vec<u8>>]) -> Option<&[Vec<Vec<u8>>]>
    ensures { let header = record_of windows (codes "flight") (codes "fleet") (codes "shift") in
        MatchOption result (LacksHeader header (rows_in records.now)) (λ rows. IsUnder header (rows_in records.now) (rows_in rows.now)) }
{
    if windows {
        below_header(records, &HEADER_WITH_SHIFT)
    } else {
        below_header(records, &HEADER)
    }
}

/// The choices of the records below the header, or the first fault there.
fn choices_of(
    alloc: Global,
    tables: &Tables,
    fleets: &Names,
    rows: &[Vec<Vec<u8>>],
) -> Result<Assignment, PlanError>
    requires { fleets.now ≡ fleet_names tables.now }
    ensures assignment { IfOk result (IsAssignment tables.now) }
    ensures reads { MatchResult result (λ a. rows_in rows.now ≡ leg_records tables.now a (legs_in tables.now)) (IsFirstRowFault tables.now (rows_in rows.now)) }
{
    let mut plan = Assignment::empty();
    for (place, row) in rows.iter().enumerate() {
        match choice_of(alloc, tables, fleets, place, row) {
            Ok(choice) => plan.push(choice),
            Err(error) => return Err(fault_at(place, error)),
        }
    }
    if plan.len() < tables.leg_count() {
        return Err(PlanError::Fault(PlanFault {
            row: rows.len() as u64 + 2,
            kind: WRONG_COUNT,
        }));
    }
    Ok(plan)
}

/// The fault of the record at a place below the header, counted from 0, or want of memory.
fn fault_at(place: usize, error: RecordError) -> PlanError
    requires { place + 2 < 2 ^ 64 }
    ensures { result ≡ plan_refusal_at place error }
{
    match error {
        RecordError::Bad { kind } => PlanError::Fault(PlanFault {
            row: place as u64 + 2,
            kind,
        }),
        RecordError::NoMemory => PlanError::NoMemory,
    }
}

/// The choice of the record at the place of a leg, or the least kind of its faults.
#[tactic(auto, unfolding(crate::specs::Reading::choice_read))]
fn choice_of(
    alloc: Global,
    tables: &Tables,
    fleets: &Names,
    place: usize,
    row: &[Vec<u8>],
) -> Result<u32, RecordError>
    requires { fleets.now ≡ fleet_names tables.now }
    ensures reads { MatchResult result (λ choice. choice_read tables.now place (fields_in row.now) ≡ Ok choice) (IsFaultOf (choice_read tables.now place (fields_in row.now))) }
    ensures leg { IfOk result (λ _. place < legs_in tables.now) }
{
    let Some(leg) = tables.legs.as_slice().get(place) else {
        return Err(RecordError::Bad { kind: WRONG_COUNT });
    };
    let Some((flight, fleet, shift)) = texts_of(tables.windows, row) else {
        return Err(RecordError::Bad { kind: WRONG_FIELDS });
    };
    if flight != leg.flight.as_slice() {
        return Err(RecordError::Bad { kind: WRONG_FLIGHT });
    }
    match choice_with(alloc, tables, fleets, place as u32, fleet, shift)? {
        Some(choice) => Ok(choice),
        None => Err(RecordError::Bad {
            kind: UNKNOWN_CHOICE,
        }),
    }
}

/// The texts of a record: its flight, its fleet, and its shift, which is 0 where records have two fields.
fn texts_of(windows: bool, row: &[Vec<u8>]) -> Option<(&[u8], &[u8], &[u8])>
    ensures { option_map (λ f. (f.0.now, f.1.now, f.2.now)) result ≡ texts_in windows (fields_in row.now) }
{
    let (flight, fleet, shift) = if windows {
        three_fields(row)?
    } else {
        let (flight, fleet) = two_fields(row)?;
        (flight, fleet, OWN_TIME)
    };
    if is_text(flight) && is_text(fleet) && is_text(shift) {
        Some((flight, fleet, shift))
    } else {
        None
    }
}
