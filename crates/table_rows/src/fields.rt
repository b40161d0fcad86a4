ghost use Rattle.std.specs.Prelude.{◌≡◌, option_map};
ghost use Rattle.std.specs.Str.{is_utf8};
ghost use Rattle.table_rows.specs.Fields.{five_of, four_of, three_of, two_of};
ghost use Rattle.table_rows.specs.Rows.{fields_in};

use std::str;

/// The fields of a record that has two.
pub fn two_fields(row: &[Vec<u8>]) -> Option<(&[u8], &[u8])>
    ensures { option_map (λ f. (f.0.now, f.1.now)) result ≡ two_of (fields_in row.now) }
{
    let (first, rest) = row.split_first()?;
    let (second, rest) = rest.split_first()?;
    if !rest.is_empty() {
        return None;
    }
    Some((first.as_slice(), second.as_slice()))
}

/// The fields of a record that has three.
pub fn three_fields(row: &[Vec<u8>]) -> Option<(&[u8], &[u8], &[u8])>
    ensures { option_map (λ f. (f.0.now, f.1.now, f.2.now)) result ≡ three_of (fields_in row.now) }
{
    let (first, rest) = row.split_first()?;
    let (second, third) = two_fields(rest)?;
    Some((first.as_slice(), second, third))
}

/// The fields of a record that has five.
pub fn five_fields(row: &[Vec<u8>]) -> Option<(&[u8], &[u8], &[u8], &[u8], &[u8])>
    ensures { option_map (λ f. (f.0.now, f.1.now, f.2.now, f.3.now, f.4.now)) result ≡ five_of (fields_in row.now) }
{
    let (first, rest) = row.split_first()?;
    let (second, third, fourth, fifth) = four_fields(rest)?;
    Some((first.as_slice(), second, third, fourth, fifth))
}

/// The fields of a record that has four.
pub fn four_fields(row: &[Vec<u8>]) -> Option<(&[u8], &[u8], &[u8], &[u8])>
    ensures { option_map (λ f. (f.0.now, f.1.now, f.2.now, f.3.now)) result ≡ four_of (fields_in row.now) }
{
    let (first, rest) = row.split_first()?;
    let (second, third, fourth) = three_fields(rest)?;
    Some((first.as_slice(), second, third, fourth))
}

/// Whether a field is UTF-8.
pub fn is_text(field: &[u8]) -> bool
    ensures { result ≡ is_utf8 field.now }
{
    match str::from_utf8(field) {
        Ok(_) => true,
        Err(_) => false,
    }
}
