ghost use Rattle.std.specs.Prelude.{◌≡◌, ◌<ℤ◌, ℕ, pos, map, length, unsigned_abs};
ghost use Rattle.sums.specs.Divisors.{gcd, gcd_below};
ghost use Rattle.frac_row.specs.Outgrown.{IsWithin};
ghost use Rattle.frac_row.specs.Row.{IsRow, reduced};
ghost use Rattle.frac_row.specs.Content.{number_at, divided_entry};

use crate::division::divide;
use crate::divisor::gcd;
use crate::entry::Entry;
use crate::sparse_row::SparseRow;

/// Divides all numbers and the denominator by their greatest common divisor.
pub fn reduce(row: &mut SparseRow)
    requires { IsRow row.old }
    ensures { row.new ≡ reduced row.old }
{
    let divisor = divisor_of(&row.den, row.entries.as_slice());
    if divisor != 1 {
        divide_entries(&mut row.entries, &divisor);
        row.den = divide(row.den, divisor).quotient;
    }
}

/// The greatest common divisor of the denominator and the numbers. Zeros have no part in it, and the
/// search ends at 1.
fn divisor_of(den: &i128, entries: &[Entry]) -> i128
    requires den { IsWithin den.now }
    requires positive { pos 0 <ℤ den.now }
    requires numbers { (k : ℕ) → IsWithin (number_at entries.now k) }
    ensures { result ≡ pos (gcd_below (unsigned_abs den.now) (λ k. unsigned_abs (number_at entries.now k)) (length entries.now)) }
{
    let mut divisor = *den;
    for entry in entries {
        if divisor == 1 {
            return 1;
        }
        divisor = joined(&divisor, &entry.number);
    }
    divisor
}

/// The greatest common divisor of a divisor and a number. Mostly the divisor is the smaller one, and is
/// taken second: then one division tells that it divides the number.
fn joined(divisor: &i128, number: &i128) -> i128
    requires first { IsWithin divisor.now }
    requires second { IsWithin number.now }
    ensures { result ≡ pos (gcd (unsigned_abs divisor.now) (unsigned_abs number.now)) }
{
    gcd(*number, *divisor)
}

/// Divides each number.
fn divide_entries(entries: &mut Vec<Entry>, divisor: &i128)
    requires { pos 0 <ℤ divisor.now }
    ensures { entries.new.items ≡ map (divided_entry divisor.now) entries.old.items }
{
    for place in 0..entries.len() {
        entries[place] = divided(&entries[place], divisor);
    }
}

fn divided(entry: &Entry, divisor: &i128) -> Entry
    requires { pos 0 <ℤ divisor.now }
    ensures { result ≡ divided_entry divisor.now entry.now }
{
    Entry {
        column: entry.column,
        number: divide(entry.number, *divisor).quotient,
    }
}
