//! Dates one after the other.
ghost use Rattle.std.specs.Prelude.{◌≡◌, ◌↔◌, ◌≤◌, ◌+ℤ◌, ◌≤ℤ◌, IfOk, IfSome, None, map, pos};
ghost use Rattle.jiff_core.specs.Calendar.{IsEpochDay};
ghost use Rattle.calendar_dates.specs.Days.{HasDays, IsCounted, IsEarlier, day_after, day_number, day_on, days_between, days_from};

use crate::conversion::{from_civil, to_civil};
use crate::date::Date;
use entries::NoMemory;
use jiff::ToSpan;
use std::alloc::Global;

/// So many dates, from the first on.
pub fn dates_from(alloc: Global, first: Date, count: u32) -> Result<Vec<Date>, NoMemory>
    requires { HasDays first count }
    ensures { IfOk result (λ dates. map day_on dates.items ≡ days_from (day_on first) count) }
{
    let mut dates = Vec::new(alloc);
    for days in 0..count {
        dates.push(date_after(first, days))?;
    }
    Ok(dates)
}

/// The date so many days later.
fn date_after(first: Date, days: u32) -> Date
    requires { IsEpochDay (day_number (day_on first) +ℤ pos days) }
    ensures { day_on result ≡ day_after (day_on first) days }
{
    match to_civil(first).checked_add(i64::from(days).days()) {
        Ok(date) => from_civil(date),
        Err(_) => unreachable!(),
    }
}

/// How many days after the first date another one is; None where it is earlier.
pub fn days_between(first: Date, date: Date) -> Option<u32>
    ensures days { result ≡ days_between (day_on first) (day_on date) }
    ensures earlier { (result ≡ None) ↔ IsEarlier (day_on date) (day_on first) }
    ensures later { IfSome result (λ days. day_on date ≡ day_after (day_on first) days) }
    ensures few { pos 1 ≤ℤ first.year → IfSome result (λ days. days ≤ 3652058) }
{
    days_since_first(date).checked_sub(days_since_first(first))
}

/// The days from -9999-01-01, the first date of `jiff`, to a date.
fn days_since_first(date: Date) -> u32
    ensures days { IsCounted date result }
    ensures few { result ≤ 7304483 }
{
    to_civil(date).to_plain().days_since_min()
}
