//! What the values of options read as.
ghost use Rattle.std.specs.Prelude.{◌≡◌, ◌≤◌, ◌<◌, IfSome};
ghost use Rattle.std.specs.Str.Parse.{starts_with_minus};
ghost use Rattle.command_words.specs.Values.{minute_read, number_read};
ghost use Rattle.fleet_model.specs.declared.limits.TheConstants.{MINUTES_PER_DAY};

use csv_fields::{clock_time, whole};

/// The minute of the day that a text tells as HH:MM.
pub(crate) fn minute_of_day(text: &str) -> Option<u16>
    ensures read { result ≡ minute_read text.now }
    ensures in_day { IfSome result (λ minute. minute < MINUTES_PER_DAY) }
{
    match clock_time(text.as_bytes()) {
        Ok(minute) => Some(minute),
        Err(_) => None,
    }
}

/// The number that a text of 1 to 20 digits writes, where it lies between two bounds. A sign is no digit.
pub(crate) fn number_between(text: &str, least: u64, greatest: u64) -> Option<u64>
    ensures read { result ≡ number_read least greatest text.now }
    ensures least { IfSome result (λ number. least ≤ number) }
    ensures greatest { IfSome result (λ number. number ≤ greatest) }
{
    let field = text.as_bytes();
    if has_minus(field) {
        return None;
    }
    match whole(field, i128::from(least), i128::from(greatest)) {
        Ok(number) => Some(number as u64),
        Err(_) => None,
    }
}

fn has_minus(field: &[u8]) -> bool
    ensures { result ≡ starts_with_minus field.now }
{
    match field.first() {
        Some(byte) => *byte == b'-',
        None => false,
    }
}
