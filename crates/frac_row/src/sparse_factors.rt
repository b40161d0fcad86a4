ghost use Rattle.std.specs.Prelude.{◌≡◌, ◌<◌, pos, ◌<ℤ◌};
ghost use Rattle.frac_row.specs.Row.{IsRow, number_of, width_of};
ghost use Rattle.frac_row.specs.Combined.{factors_of};

use crate::factors::Factors;
use crate::sparse_row::SparseRow;

/// The least factors of a row and the pivot row that leave 0 in the column.
pub fn factors_between(row: &SparseRow, pivot_row: &SparseRow, column: u32) -> Factors
    requires row { IsRow row.now }
    requires pivot_row { IsRow pivot_row.now }
    requires in_row { column < width_of row.now }
    requires in_pivot_row { column < width_of pivot_row.now }
    requires positive { pos 0 <ℤ number_of pivot_row.now column }
    ensures { result ≡ factors_of row.now pivot_row.now column }
{
    Factors::of_numbers(&row.number(column), &pivot_row.number(column))
}
