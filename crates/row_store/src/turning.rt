ghost use Rattle.std.specs.Prelude.{◌≡◌, neg_ℤ, map, All};
ghost use Rattle.frac_row.specs.Outgrown.{IsWithin};
ghost use Rattle.frac_row.specs.Row.{IsRow};
ghost use Rattle.row_store.specs.Steps.{turned_row};

use entries::Entries;
use frac_row::FracRow;

/// Turns the sign of all numbers of a row. Takes no memory.
pub fn turn_row(row: &mut FracRow)
    requires { IsRow row.old }
    ensures { row.new ≡ turned_row row.old }
{
    turn_numbers(&mut row.numbers);
}

fn turn_numbers(numbers: &mut Entries<i128>)
    requires { All IsWithin numbers.old }
    ensures { numbers.new ≡ map neg_ℤ numbers.old }
{
    for column in 0..numbers.len() {
        let number = numbers.as_slice()[column];
        numbers.set(column, -number);
    }
}
