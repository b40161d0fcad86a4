ghost use Rattle.std.specs.Prelude.{◌≤◌, ◌-◌, ◌^◌, ◌↔◌, IsTrue, All, unsigned_abs};
ghost use Rattle.frac_row.specs.Outgrown.{IsWithin};
ghost use Rattle.frac_row.specs.Row.{IsRow, IsSmall};

use crate::row::FracRow;

/// Whether no number of the row is outgrown and its denominator is above 0.
pub fn is_row(row: &FracRow) -> bool
    ensures { IsTrue result ↔ IsRow row.now }
{
    row.den > 0 && are_within(row.numbers.as_slice())
}

fn are_within(numbers: &[i128]) -> bool
    ensures { IsTrue result ↔ All IsWithin numbers.now }
{
    numbers.iter().all(|number| *number != i128::MIN)
}

/// Whether all numbers and the denominator are small, so that nothing of two such rows is outgrown.
pub fn is_small(row: &FracRow) -> bool
    ensures { IsTrue result ↔ IsSmall row.now }
{
    is_small_number(&row.den) && row.numbers.as_slice().iter().all(is_small_number)
}

/// Whether a number is that small.
#[inline(always)]
pub fn is_small_number(number: &i128) -> bool
    ensures { IsTrue result ↔ (unsigned_abs number.now ≤ 2 ^ 63 - 1) }
{
    -SMALL < *number && *number < SMALL
}

const SMALL: i128 = 1 << 63;
