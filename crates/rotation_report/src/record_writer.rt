//! Records of a round: five fields each, written to memory by the default writer of `csv`.
ghost use Rattle.std.specs.Prelude.{[], ◌∷◌, OnOk, map};
ghost use Rattle.std.specs.Fmt.{decimal};
ghost use Rattle.plan_text.specs.CsvText.{HasWritten, IsBetweenRecords};
ghost use Rattle.rotation_report.specs.RoundRows.{HasRows};

use csv::{Error, Writer};
use entries::NoMemory;
use std::alloc::Global;

/// A round of a fleet, as its records begin.
#[derive(Clone, Copy)]
pub struct Round<'a> {
    /// The name of the fleet.
    pub name: &'a [u8],
    /// The number of the round.
    pub number: &'a [u8],
}

/// Writes a record.
pub fn put_record(writer: &mut Writer<Vec<u8>>, fields: &[&[u8]]) -> Result<(), NoMemory>
    requires { IsBetweenRecords writer.old }
    ensures { OnOk result (HasWritten writer.old writer.new (map (λ field. field.now) fields.now ∷ [])) }
{
    match writer.write_fields(fields) {
        Ok(()) => Ok(()),
        Err(error) => Err(want_of_memory(error)),
    }
}

/// Of a writer to memory whose records have as many fields each, an error is want of memory.
pub fn want_of_memory(_: Error) -> NoMemory {
    NoMemory
}

/// Writes what a record says of a round: a kind, and two fields.
pub fn put_row(
    writer: &mut Writer<Vec<u8>>,
    round: Round<'_>,
    kind: &[u8],
    a: &[u8],
    b: &[u8],
) -> Result<(), NoMemory>
    requires { IsBetweenRecords writer.old }
    ensures { OnOk result (HasRows writer.old writer.new round.entry (record { kind = kind.now; a = a.now; b = b.now } ∷ [])) }
{
    put_record(writer, &[round.name, round.number, kind, a, b])
}

/// Writes what a record says of a round: a kind, and two numbers.
pub fn put_numbers(
    alloc: Global,
    writer: &mut Writer<Vec<u8>>,
    round: Round<'_>,
    kind: &[u8],
    a: u64,
    b: u64,
) -> Result<(), NoMemory>
    requires { IsBetweenRecords writer.old }
    ensures { OnOk result (HasRows writer.old writer.new round.entry (record { kind = kind.now; a = decimal a; b = decimal b } ∷ [])) }
{
    let first = a.to_string(alloc)?;
    let second = b.to_string(alloc)?;
    put_row(writer, round, kind, first.as_bytes(), second.as_bytes())
}
