//! The days of a period, by its minutes.
ghost use Rattle.std.specs.Prelude.{◌≡◌, ◌<◌, ◌≤◌};
ghost use Rattle.fleet_model.specs.Period.{day_end, day_of_minute, days_ended, ends_day, minute_of_day, minutes_of};

use crate::limits::MINUTES_PER_DAY;

/// The minutes of so many days, of a week at most. Takes no memory.
pub fn minutes_of(days: u16) -> u16
    requires week { days ≤ 7 }
    ensures { result ≡ minutes_of days }
{
    days * MINUTES_PER_DAY
}

/// The day on which a minute lies, days counted from 0. Takes no memory.
pub fn day_of_minute(minute: u16) -> u16
    ensures value { result ≡ day_of_minute minute }
    ensures few { result ≤ 45 }
{
    minute / MINUTES_PER_DAY
}

/// A minute, counted from the start of its day. Takes no memory.
pub fn minute_of_day(minute: u32) -> u32
    ensures { result ≡ minute_of_day minute }
{
    minute % u32::from(MINUTES_PER_DAY)
}

/// The last minute of a day, days counted from 1. Takes no memory.
pub fn day_end(day: u32) -> u16
    requires some { 0 < day }
    requires week { day ≤ 7 }
    ensures { result ≡ day_end day }
{
    day as u16 * MINUTES_PER_DAY - 1
}

/// Whether a minute is the last of its day. Takes no memory.
pub fn ends_day(minute: u16) -> bool
    requires week { minute < 10080 }
    ensures { result ≡ ends_day minute }
{
    (minute + 1) % MINUTES_PER_DAY == 0
}

/// How many days have ended with a minute. Takes no memory.
pub fn days_ended(minute: u16) -> u32
    requires week { minute < 10080 }
    ensures { result ≡ days_ended minute }
{
    u32::from((minute + 1) / MINUTES_PER_DAY)
}
