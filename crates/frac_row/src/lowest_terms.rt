ghost use Rattle.std.specs.Prelude.{◌≡◌, ◌<ℤ◌, pos, length, slice_index_or, int_div};
ghost use Rattle.sums.specs.Places.{list_below};
ghost use Rattle.frac_row.specs.Row.{IsRow, common_divisor, reduced};

use crate::division::divide;
use crate::divisor::gcd;
use crate::row::FracRow;
use entries::Entries;

/// Divides all numbers and the denominator by their greatest common divisor.
pub fn reduce(row: &mut FracRow)
    requires { IsRow row.old }
    ensures { row.new ≡ reduced row.old }
{
    let divisor = divisor_of(row);
    if divisor != 1 {
        divide_numbers(&mut row.numbers, &divisor);
        row.den = divide(row.den, divisor).quotient;
    }
}

/// The greatest common divisor of all numbers and the denominator. The search ends at 1.
fn divisor_of(row: &FracRow) -> i128
    requires { IsRow row.now }
    ensures value { result ≡ pos (common_divisor row.now) }
    ensures positive { pos 0 <ℤ result }
{
    let numbers = row.numbers.as_slice();
    let mut divisor = row.den;
    for number in numbers {
        if divisor == 1 {
            return 1;
        }
        divisor = gcd(divisor, *number);
    }
    divisor
}

/// Divides each number.
fn divide_numbers(numbers: &mut Entries<i128>, divisor: &i128)
    requires { pos 0 <ℤ divisor.now }
    ensures { numbers.new ≡ list_below (λ column. int_div (slice_index_or numbers.old column (pos 0)) divisor.now) (length numbers.old) }
{
    for column in 0..numbers.len() {
        let number = numbers.as_slice()[column];
        numbers.set(column, divide(number, *divisor).quotient);
    }
}
