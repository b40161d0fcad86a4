ghost use Rattle.std.specs.Prelude.{◌≡◌, IfOk, map};
ghost use Rattle.csv.specs.Records.{fields_of};
ghost use Rattle.csv_fields.specs.Record.{records_of, rows_of};

use csv::{ByteRecord, ErrorKind, ReaderBuilder};
use entries::NoMemory;
use std::alloc::Global;

/// The records of a file, each the list of its fields: comma, double quotes, nothing trimmed,
/// records of any length, and the header a record like any other. One byte order mark at the very
/// start is passed over. What a record is, and which lines are none, is the definition of `csv`.
///
/// `csv` cannot rule out that a slice fails as a reader, so its error of the reader underneath, which
/// never comes here, is taken for want of memory.
pub fn records(alloc: Global, bytes: &[u8]) -> Result<Vec<Vec<Vec<u8>>>, NoMemory>
    ensures { IfOk result (λ rows. rows_of rows ≡ records_of bytes.now) }
{
    let reader = ReaderBuilder::new()
        .has_headers(false)
        .flexible(true)
        .from_reader(alloc, bytes);
    let mut rows = Vec::new(alloc);
    for record in reader.into_byte_records() {
        match record {
            Ok(record) => {
                let row = fields(alloc, &record)?;
                rows.push(row)?;
            }
            Err(error) => match error.into_kind() {
                ErrorKind::OutOfMemory | ErrorKind::Io(_) => return Err(NoMemory),
                _ => unreachable!(),
            },
        }
    }
    Ok(rows)
}

// The fields of a record, each on its own.
fn fields(alloc: Global, row: &ByteRecord) -> Result<Vec<Vec<u8>>, NoMemory>
    ensures { IfOk result (λ fields. map (λ field. field.items) fields.items ≡ fields_of row.now) }
{
    let mut fields = Vec::with_capacity(alloc, row.len())?;
    for field in row {
        let copy = Vec::from_slice(alloc, field)?;
        fields.push(copy)?;
    }
    Ok(fields)
}
