ghost use Rattle.std.specs.Prelude.{◌≡◌, ◌↔◌, ◌+◌, ◌-◌, ◌*◌, ◌<◌, ℕ, IfOk, SomeIff};
ghost use Rattle.std.specs.Char.{IsAsciiDigit};
ghost use Rattle.csv_fields.specs.Time.{IsClockTime, clock_time_of};

use crate::fault::FieldFault;

const HOURS: u16 = 24;

const MINUTES: u16 = 60;

/// The minute of the day that a field tells as HH:MM, from 00:00 to 23:59. Any other field is no
/// time.
#[tactic(auto, unfolding(crate::specs::Time::clock_time_of))]
pub fn clock_time(field: &[u8]) -> Result<u16, FieldFault>
    ensures reads { result ≡ clock_time_of field.now }
    ensures in_day { IfOk result (λ minute. minute < 24 * 60) }
    ensures form { (minute : ℕ) → (result ≡ Ok minute) ↔ IsClockTime field.now minute }
{
    match field {
        [hour_tens, hour_ones, b':', minute_tens, minute_ones] => {
            let hours = two_digits(*hour_tens, *hour_ones);
            let minutes = two_digits(*minute_tens, *minute_ones);
            match (hours, minutes) {
                (Some(hours), Some(minutes)) if hours < HOURS && minutes < MINUTES => {
                    Ok(MINUTES * hours + minutes)
                }
                _ => Err(FieldFault::NOT_A_TIME),
            }
        }
        _ => Err(FieldFault::NOT_A_TIME),
    }
}

// The number that two digits write.
fn two_digits(tens: u8, ones: u8) -> Option<u16>
    ensures { SomeIff result (IsAsciiDigit tens × IsAsciiDigit ones) (10 * (tens - 48) + (ones - 48)) }
{
    if tens.is_ascii_digit() && ones.is_ascii_digit() {
        Some(u16::from(tens - b'0') * 10 + u16::from(ones - b'0'))
    } else {
        None
    }
}
