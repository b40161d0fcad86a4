ghost use Rattle.std.specs.Prelude.{◌≡◌, ◌<◌, pos, ◌<ℤ◌, IfOk};
ghost use Rattle.frac_row.specs.Row.{IsRow, number_of, width_of, reduced};

use crate::sparse_lowest_terms::reduce;
use crate::sparse_row::SparseRow;
use entries::NoMemory;
use std::alloc::Global;

/// The row over its number in a column, in lowest terms: what a pivot of the simplex method makes of the
/// pivot row.
pub fn scaled(alloc: Global, row: &SparseRow, column: u32) -> Result<SparseRow, NoMemory>
    requires row { IsRow row.now }
    requires in_row { column < width_of row.now }
    requires positive { pos 0 <ℤ number_of row.now column }
    ensures { IfOk result (λ made. made ≡ reduced (record { numbers = row.now.numbers; den = number_of row.now column })) }
{
    let den = row.number(column);
    let mut made = SparseRow {
        entries: Vec::from_slice(alloc, row.entries.as_slice())?,
        width: row.width,
        den,
    };
    reduce(&mut made);
    Ok(made)
}
