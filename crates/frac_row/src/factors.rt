ghost use Rattle.std.specs.Prelude.{◌≡◌, ◌<◌, ◌<ℤ◌, pos};
ghost use Rattle.frac_row.specs.Outgrown.{IsWithin};
ghost use Rattle.frac_row.specs.Row.{IsRow, number_of, width_of};
ghost use Rattle.frac_row.specs.Combined.{factors_of, factors_of_numbers};

use crate::division::divide;
use crate::divisor::gcd;
use crate::row::FracRow;

/// What a row and the pivot row are multiplied by before they are subtracted.
#[derive(Clone, Copy)]
pub struct Factors {
    /// The factor of the row itself.
    pub own: i128,
    /// The factor of the pivot row.
    pub pivot: i128,
}

impl Factors {
    /// The least factors that leave 0 in the column.
    pub fn between(row: &FracRow, pivot_row: &FracRow, column: u32) -> Factors
        requires row { IsRow row.now }
        requires pivot_row { IsRow pivot_row.now }
        requires in_row { column < width_of row.now }
        requires in_pivot_row { column < width_of pivot_row.now }
        requires positive { pos 0 <ℤ number_of pivot_row.now column }
        ensures { result ≡ factors_of row.now pivot_row.now column }
    {
        Factors::of_numbers(&row.number(column), &pivot_row.number(column))
    }

    /// Those of what the two rows have in the column: the other number each, over their greatest common divisor.
    pub fn of_numbers(number: &i128, pivot_number: &i128) -> Factors
        requires number { IsWithin number.now }
        requires pivot_number { IsWithin pivot_number.now }
        requires positive { pos 0 <ℤ pivot_number.now }
        ensures { result ≡ factors_of_numbers number.now pivot_number.now }
    {
        let divisor = gcd(*pivot_number, *number);
        Factors {
            own: divide(*pivot_number, divisor).quotient,
            pivot: divide(*number, divisor).quotient,
        }
    }
}
