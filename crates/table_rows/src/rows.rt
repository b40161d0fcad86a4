ghost use Rattle.std.specs.Prelude.{◌≡◌, ◌↔◌, IsTrue, MatchOption, map};
ghost use Rattle.table_rows.specs.Rows.{IsUnder, LacksHeader, fields_in, rows_in};

/// The records below the header, where the first record is the header.
pub fn below_header<'a>(records: &'a [Vec<Vec<u8>>], header: &[&[u8]]) -> Option<&'a [Vec<Vec<u8>>]>
    ensures { MatchOption result (LacksHeader (map (λ word. word.now) header.now) (rows_in records.now))
        (λ rest. IsUnder (map (λ word. word.now) header.now) (rows_in records.now) (rows_in rest.now)) }
{
    let (first, rest) = records.split_first()?;
    if is_header(first, header) {
        Some(rest)
    } else {
        None
    }
}

/// Whether a record has the words of the header.
fn is_header(row: &[Vec<u8>], header: &[&[u8]]) -> bool
    ensures { IsTrue result ↔ (fields_in row.now ≡ map (λ word. word.now) header.now) }
{
    match (row.split_first(), header.split_first()) {
        (None, None) => true,
        (Some((field, fields)), Some((word, words))) => {
            field.as_slice() == *word && is_header(fields, words)
        }
        _ => false,
    }
}
