ghost use Rattle.std.specs.Prelude.{MatchOption, map};
ghost use Rattle.table_rows.specs.Forms.{IsInForm, LacksForm, header_in};
ghost use Rattle.table_rows.specs.Rows.{rows_in};

use crate::rows::below_header;

/// Which of its two headers a file has.
#[derive(Clone, Copy)]
pub enum Form {
    Old,
    /// That with a further column.
    New,
}

/// The form of a file and the records below its header, where its first record is the new header, or is the old one
/// and that is allowed.
pub fn below_either<'a>(
    records: &'a [Vec<Vec<u8>>],
    old: &[&[u8]],
    new: &[&[u8]],
    old_allowed: bool,
) -> Option<(Form, &'a [Vec<Vec<u8>>])>
    ensures { let header = header_in (map (λ word. word.now) old.now) (map (λ word. word.now) new.now) in
        MatchOption result (LacksForm header old_allowed (rows_in records.now))
        (λ found. IsInForm header old_allowed (rows_in records.now) found.0 (rows_in found.1.now)) }
{
    match below_header(records, new) {
        Some(rows) => Some((Form::New, rows)),
        None if old_allowed => Some((Form::Old, below_header(records, old)?)),
        None => None,
    }
}
