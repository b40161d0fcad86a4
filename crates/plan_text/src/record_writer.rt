//! Records written to memory, by the default writer of `csv`.
ghost use Rattle.std.specs.Prelude.{◌≡◌, [], ◌∷◌, OnOk, map};
ghost use Rattle.plan_text.specs.CsvText.{HasWritten, IsBetweenRecords};

use csv::{Error, Writer};
use entries::NoMemory;

/// Writes a record.
pub fn put_record(writer: &mut Writer<Vec<u8>>, fields: &[&[u8]]) -> Result<(), NoMemory>
    requires { IsBetweenRecords writer.old }
    ensures { OnOk result (HasWritten writer.old writer.new (map (λ field. field.now) fields.now ∷ [])) }
{
    match writer.write_fields(fields) {
        Ok(()) => Ok(()),
        Err(error) => Err(want_of_memory(error)),
    }
}

/// Of a writer to memory whose records have as many fields each, an error is want of memory.
pub fn want_of_memory(_: Error) -> NoMemory {
    NoMemory
}
