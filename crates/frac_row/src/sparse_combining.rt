ghost use Rattle.std.specs.Prelude.{◌≡◌, ◌<◌, pos, ◌<ℤ◌, None, IfOk};
ghost use Rattle.frac_row.specs.Row.{IsRow, number_of, width_of};
ghost use Rattle.frac_row.specs.Combined.{combined_row, growth_of};
ghost use Rattle.frac_row.specs.Pairs.{pairs_of, combined_entries, AllFit};

use crate::combining::combined_number;
use crate::entry::Entry;
use crate::factors::Factors;
use crate::pairs::Pairs;
use crate::sparse_factors::factors_between;
use crate::sparse_lowest_terms::reduce;
use crate::sparse_row::SparseRow;
use entries::NoMemory;
use std::alloc::Global;

/// The row less the multiple of the pivot row that leaves 0 in the column, in lowest terms: the step that a
/// pivot of the simplex method takes for each other row. Nothing is outgrown on the way.
pub fn combine(
    alloc: Global,
    row: &SparseRow,
    pivot_row: &SparseRow,
    column: u32,
) -> Result<SparseRow, NoMemory>
    requires row { IsRow row.now }
    requires pivot_row { IsRow pivot_row.now }
    requires same_width { width_of row.now ≡ width_of pivot_row.now }
    requires in_row { column < width_of row.now }
    requires positive { pos 0 <ℤ number_of pivot_row.now column }
    requires fits { growth_of row.now pivot_row.now column ≡ None }
    ensures { IfOk result (λ made. made ≡ combined_row row.now pivot_row.now column) }
{
    let factors = factors_between(row, pivot_row, column);
    let entries = combine_entries(
        alloc,
        &factors,
        row.entries.as_slice(),
        pivot_row.entries.as_slice(),
    )?;
    let mut made = SparseRow {
        entries,
        width: row.width,
        den: factors.own * row.den,
    };
    reduce(&mut made);
    Ok(made)
}

/// The numbers of the combination that are not 0.
fn combine_entries(
    alloc: Global,
    factors: &Factors,
    row: &[Entry],
    pivot_row: &[Entry],
) -> Result<Vec<Entry>, NoMemory>
    requires { AllFit factors.now (pairs_of row.now pivot_row.now) }
    ensures { IfOk result (λ made. made.items ≡ combined_entries factors.now (pairs_of row.now pivot_row.now)) }
{
    let mut made = Vec::with_capacity(alloc, row.len() + pivot_row.len())?;
    let mut pairs = Pairs { row, pivot_row };
    while let Some(pair) = pairs.next() {
        let number = combined_number(factors, &pair.number, &pair.pivot_number);
        if number != 0 {
            made.push(Entry {
                column: pair.column,
                number,
            })?;
        }
    }
    Ok(made)
}
