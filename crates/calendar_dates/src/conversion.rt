//! Dates as `jiff` has them, which stay inside bodies.
ghost use Rattle.std.specs.Prelude.{◌≡◌};
ghost use Rattle.calendar_dates.specs.Days.{civil_day_on, day_on};

use crate::date::Date;
use jiff::civil;
use jiff_core::civil::Date as PlainDate;

/// The date, as `jiff` has it.
pub(crate) fn to_civil(date: Date) -> civil::Date
    ensures { civil_day_on result ≡ day_on date }
{
    civil::Date::from_plain(PlainDate {
        year: date.year,
        month: date.month,
        day: date.day,
    })
}

/// A date of `jiff`.
pub(crate) fn from_civil(date: civil::Date) -> Date
    ensures { day_on result ≡ civil_day_on date }
{
    let date = date.to_plain();
    Date {
        year: date.year,
        month: date.month,
        day: date.day,
    }
}
