ghost use Rattle.std.specs.Int.{IsInRange};
ghost use Rattle.jiff_core.specs.Calendar.{IsYear, days_in_month};

/// A date of the calendar, of the years -9999 to 9999.
#[derive(Clone, Copy)]
pub struct Date {
    pub year: i16,
    pub month: u8,
    pub day: u8,
    pub ghost year_in: { IsYear year },
    pub ghost month_in: { IsInRange 1 12 month },
    pub ghost day_in: { IsInRange 1 (days_in_month year month) day },
}
