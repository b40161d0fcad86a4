ghost use Rattle.std.specs.Prelude.{◌≡◌, [], ◌∷◌, IfOk, OnOk};
ghost use Rattle.fleet_model.specs.Legal.{IsAssignment};
ghost use Rattle.fleet_model.specs.Schedule.{IsPair};
ghost use Rattle.plan_text.specs.CsvText.{HasWritten, IsBetweenRecords};
ghost use Rattle.plan_text.specs.Text.{pair_record, plan_text, record_of};

use crate::record_writer::{put_record, want_of_memory};
use csv::{Writer, WriterBuilder};
use entries::NoMemory;
use fleet_model::{Assignment, Pair, Tables};
use std::alloc::Global;

/// What stands for the fleet of a leg that is left out.
pub(crate) const LEFT_OUT: &[u8] = b"-";

/// The leg's own time, as it is written.
pub(crate) const OWN_TIME: &[u8] = b"0";

/// The text of a plan, as `plan.csv` holds it: the header and one record for each leg, in schedule order.
pub fn write_plan(alloc: Global, tables: &Tables, plan: &Assignment) -> Result<Vec<u8>, NoMemory>
    requires { IsAssignment tables.now plan.now }
    ensures { IfOk result (λ text. text.items ≡ plan_text tables.now plan.now) }
{
    let mut writer = WriterBuilder::new().from_writer(Vec::new(alloc));
    put_texts(&mut writer, tables.windows, b"flight", b"fleet", b"shift")?;
    for leg in 0..tables.leg_count() {
        let choice = plan.choice(leg);
        put_pair(alloc, &mut writer, tables, Pair { leg, choice })?;
    }
    match writer.into_inner() {
        Ok(text) => Ok(text),
        Err(error) => Err(want_of_memory(error.into_error())),
    }
}

/// Writes the record of a leg with one of its choices.
fn put_pair(
    alloc: Global,
    writer: &mut Writer<Vec<u8>>,
    tables: &Tables,
    pair: Pair,
) -> Result<(), NoMemory>
    requires between { IsBetweenRecords writer.old }
    requires pair { IsPair tables.now pair }
    ensures { OnOk result (HasWritten writer.old writer.new (pair_record tables.now pair.leg pair.choice ∷ [])) }
{
    let flight = tables.leg(pair.leg).flight.as_slice();
    let fleet = tables.fleet_by(pair);
    if fleet < tables.fleet_count() {
        let name = tables.fleet(fleet).name.as_slice();
        let minutes = tables.shift_by(pair).minutes.to_string(alloc)?;
        put_texts(writer, tables.windows, flight, name, minutes.as_bytes())
    } else {
        put_texts(writer, tables.windows, flight, LEFT_OUT, OWN_TIME)
    }
}

/// Writes a record of these texts, the third where legs may have other times than their own.
fn put_texts(
    writer: &mut Writer<Vec<u8>>,
    windows: bool,
    flight: &[u8],
    fleet: &[u8],
    shift: &[u8],
) -> Result<(), NoMemory>
    requires { IsBetweenRecords writer.old }
    ensures { OnOk result (HasWritten writer.old writer.new (record_of windows flight.now fleet.now shift.now ∷ [])) }
{
    if windows {
        put_record(writer, &[flight, fleet, shift])
    } else {
        put_record(writer, &[flight, fleet])
    }
}
