//! The text of a date, YYYY-MM-DD.
ghost use Rattle.std.specs.Prelude.{Some};
ghost use Rattle.calendar_dates.specs.Days.{day_on, day_text};

use crate::conversion::to_civil;
use crate::date::Date;
use std::fmt;

impl fmt::Display for Date {
    ghost output = { λ date. Some (day_text (day_on date)) };

    fn fmt<W: fmt::Write>(&self, f: &mut fmt::Formatter<W>) -> fmt::Result {
        fmt::Display::fmt(&to_civil(*self), f)
    }
}
