//! The laws of the calendar. Each function is a law: its contract is the statement, and it does nothing.
ghost use Rattle.std.specs.Prelude.{◌≡◌, ◌+ℤ◌, ℕ, pos};
ghost use Rattle.calendar_dates.specs.Days.{day_after, day_number, day_on};
ghost use Rattle.calendar_dates.specs.declared.date.Date.{Date};

/// A date that comes so many days after another by the day numbers of `jiff` is so many days later by the calendar.
pub fn days_go_by_number()
    ensures { (first later : Date) (n : ℕ) → day_number (day_on later) ≡ day_number (day_on first) +ℤ pos n → day_on later ≡ day_after (day_on first) n }
{}
