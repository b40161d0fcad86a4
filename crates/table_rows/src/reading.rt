ghost use Rattle.std.specs.Prelude.{◌≡◌, ℕ, List, [], MatchResult, Result, map};
ghost use Rattle.csv_fields.specs.Record.{records_of};
ghost use Rattle.table_rows.specs.Outcome.{IsFaultOf, IsFirstFault, IsNewEntry};
ghost use Rattle.table_rows.specs.Rows.{Fields, RowsBad, RowsRead, TableBad, TableReads, fields_in, rows_in};

use crate::faults::{RecordError, at_record, without_header};
use crate::rows::below_header;
use csv_fields::records;
use fleet_model::{LoadError, TableFile};
use std::alloc::Global;

/// Reads the records of one table, one after another.
pub trait RowReader {
    /// What a record reads as.
    type Entry: Drop;

    // What no two entries share.
    ghost key: { Self.Entry → List ℕ };

    // The keys of the entries that were read.
    ghost keys: { Self → List (List ℕ) };

    // What a record reads as below entries with such keys, or the least kind of its faults.
    ghost read: { Self → List (List ℕ) → Fields → Result Self.Entry ℕ };

    /// The entry of the next record, or the least kind of its faults.
    fn read_row(&mut self, alloc: Global, row: &[Vec<u8>]) -> Result<Self::Entry, RecordError>
        ensures reads { MatchResult result (IsNewEntry key (read self.old) (keys self.old) (keys self.new) (fields_in row.now))
            (IsFaultOf (read self.old (keys self.old) (fields_in row.now))) }
        ensures same { read self.new ≡ read self.old };
}

/// The entries of the records below the header, or the first fault of these. The reader has read none yet.
pub fn read_rows<R: RowReader>(
    alloc: Global,
    file: TableFile,
    reader: &mut R,
    rows: &[Vec<Vec<u8>>],
) -> Result<Vec<R::Entry>, LoadError>
    requires { R.keys reader.old ≡ [] }
    ensures { MatchResult result (λ entries. RowsRead R.key (R.read reader.old) (rows_in rows.now) entries.items)
        (IsFirstFault file (RowsBad R.key (R.read reader.old) (rows_in rows.now))) }
{
    let mut entries = Vec::new(alloc);
    for (place, row) in rows.iter().enumerate() {
        match reader.read_row(alloc, row) {
            Ok(entry) => entries.push(entry)?,
            Err(error) => return Err(at_record(file, place, error)),
        }
    }
    Ok(entries)
}

/// The entries of a table's file, in the order of its records, or the first fault of the file. The reader has read
/// none yet.
pub fn read_table<R: RowReader>(
    alloc: Global,
    file: TableFile,
    header: &[&[u8]],
    reader: &mut R,
    bytes: &[u8],
) -> Result<Vec<R::Entry>, LoadError>
    requires { R.keys reader.old ≡ [] }
    ensures { MatchResult result (λ entries. TableReads R.key (R.read reader.old) (map (λ word. word.now) header.now) (records_of bytes.now) entries.items)
        (IsFirstFault file (TableBad R.key (R.read reader.old) (map (λ word. word.now) header.now) (records_of bytes.now))) }
{
    let records = records(alloc, bytes)?;
    match below_header(&records, header) {
        Some(rows) => read_rows(alloc, file, reader, rows),
        None => Err(without_header(file)),
    }
}
