//! Dates in texts, YYYY-MM-DD.
ghost use Rattle.std.specs.Prelude.{◌≡◌, ◌≤◌, ◌<◌, ◌+◌, ◌-◌, ◌*◌, ◌&&◌, ◌≤ℤ◌, IfSome, Some, None, if◌then◌else◌, option_and_then, option_map, pos, true};
ghost use Rattle.std.specs.Char.{is_ascii_digit};
ghost use Rattle.calendar_dates.specs.Days.{HasDays, day_on};
ghost use Rattle.calendar_dates.specs.Reading.{civil_of, date_read, ends_in_calendar};

use crate::conversion::{from_civil, to_civil};
use crate::date::Date;
use jiff::{ToSpan, civil};

/// The date that a text writes as YYYY-MM-DD, of the years 1 to 9999.
#[tactic(auto, unfolding(crate::specs::Reading::date_read))]
pub fn civil_date(text: &str) -> Option<Date>
    ensures read { option_map day_on result ≡ date_read text.now }
    ensures year { IfSome result (λ date. pos 1 ≤ℤ date.year) }
{
    match text.as_bytes() {
        [
            hundreds_tens,
            hundreds_ones,
            year_tens,
            year_ones,
            b'-',
            month_tens,
            month_ones,
            b'-',
            day_tens,
            day_ones,
        ] => {
            let hundreds = two_digits(*hundreds_tens, *hundreds_ones);
            let years = two_digits(*year_tens, *year_ones);
            let month = two_digits(*month_tens, *month_ones);
            let day = two_digits(*day_tens, *day_ones);
            date_by_digits(hundreds, years, month, day)
        }
        _ => None,
    }
}

/// The date by what the digits of its year, in two parts, of its month and of its day write, where all are digits.
fn date_by_digits(
    hundreds: Option<u8>,
    years: Option<u8>,
    month: Option<u8>,
    day: Option<u8>,
) -> Option<Date>
    requires hundreds { IfSome hundreds (λ number. number < 100) }
    requires years { IfSome years (λ number. number < 100) }
    requires month { IfSome month (λ number. number < 100) }
    requires day { IfSome day (λ number. number < 100) }
    ensures read { option_map day_on result ≡ option_and_then (λ h. option_and_then (λ y. option_and_then (λ m. option_and_then (λ d. civil_of (100 * h + y) m d) day) month) years) hundreds }
    ensures year { IfSome result (λ date. pos 1 ≤ℤ date.year) }
{
    let year = 100 * u16::from(hundreds?) + u16::from(years?);
    civil_day(year, month?, day?)
}

/// The date with this year, month and day, where the calendar has it.
fn civil_day(year: u16, month: u8, day: u8) -> Option<Date>
    requires year { year < 10000 }
    requires month { month < 100 }
    requires day { day < 100 }
    ensures read { option_map day_on result ≡ civil_of year month day }
    ensures year { IfSome result (λ date. pos 1 ≤ℤ date.year) }
{
    if year == 0 {
        return None;
    }
    match civil::Date::new(year as i16, month as i8, day as i8) {
        Ok(date) => Some(from_civil(date)),
        Err(_) => None,
    }
}

/// The number that two digits write.
fn two_digits(tens: u8, ones: u8) -> Option<u8>
    ensures value { result ≡ (if is_ascii_digit tens && is_ascii_digit ones then Some (10 * (tens - 48) + (ones - 48)) else None) }
    ensures fits { IfSome result (λ number. number < 100) }
{
    if tens.is_ascii_digit() && ones.is_ascii_digit() {
        Some(10 * (tens - b'0') + (ones - b'0'))
    } else {
        None
    }
}

/// Whether so many dates, from the first on, end on 9999-12-31 at the latest.
pub fn ends_in_calendar(first: Date, count: u32) -> bool
    requires year { pos 1 ≤ℤ first.year }
    requires some { 1 ≤ count }
    requires few { count ≤ 366 }
    ensures told { result ≡ ends_in_calendar (day_on first) count }
    ensures last { (result ≡ true) → HasDays first count }
{
    to_civil(first)
        .checked_add(i64::from(count - 1).days())
        .is_ok()
}
