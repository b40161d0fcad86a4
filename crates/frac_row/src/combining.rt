ghost use Rattle.std.specs.Prelude.{◌≡◌, ◌<◌, ◌^◌, ℕ, ℤ, pos, ◌<ℤ◌, length, slice_index_or, None, IfOk, IfErr, IsTrue};
ghost use Rattle.sums.specs.Places.{list_below};
ghost use Rattle.frac_row.specs.Row.{IsRow, number_of, width_of, reduced};
ghost use Rattle.frac_row.specs.Combined.{combined_number, combination, combined_row, PlaceFits, growth_by, growth_of};
ghost use Rattle.frac_row.specs.Combine.{IsCombineError};

use crate::factors::Factors;
use crate::growth::growth_by;
use crate::lowest_terms::reduce;
use crate::row::FracRow;
use entries::Entries;
use std::alloc::Global;
use thiserror::Error;

/// Why two rows could not be combined.
#[derive(Clone, Copy, Debug, Error)]
pub enum CombineError {
    /// A product or difference is outgrown, first in this column (the denominator stands after the
    /// last number); `left` and `right` are its operands.
    #[error("{left} and {right} outgrow column {column}")]
    Grew {
        column: u32,
        left: i128,
        right: i128,
    },
    #[error("out of memory")]
    NoMemory,
}

/// The row less the multiple of the pivot row that leaves 0 in the column, in lowest terms: the step
/// that a pivot of the simplex method takes for each other row.
pub fn combine(
    alloc: Global,
    row: &FracRow,
    pivot_row: &FracRow,
    column: u32,
) -> Result<FracRow, CombineError>
    requires row { IsRow row.now }
    requires pivot_row { IsRow pivot_row.now }
    requires same_width { width_of row.now ≡ width_of pivot_row.now }
    requires columns { width_of row.now < 2 ^ 32 }
    requires in_row { column < width_of row.now }
    requires positive { pos 0 <ℤ number_of pivot_row.now column }
    ensures combined { IfOk result (λ made. made ≡ combined_row row.now pivot_row.now column) }
    ensures fits { IfOk result (λ _. growth_of row.now pivot_row.now column ≡ None) }
    ensures grew { IfErr result (IsCombineError row.now pivot_row.now column) }
{
    let factors = Factors::between(row, pivot_row, column);
    if let Some(growth) = growth_by(&factors, row, pivot_row) {
        return Err(CombineError::Grew {
            column: growth.column,
            left: growth.left,
            right: growth.right,
        });
    }
    let Ok(mut combined) = row.copy(alloc) else {
        return Err(CombineError::NoMemory);
    };
    combine_in_place(&mut combined, pivot_row, &factors);
    Ok(combined)
}

/// The same in the row's own place, where nothing is outgrown. Takes no memory.
pub fn combine_in_place(row: &mut FracRow, pivot_row: &FracRow, factors: &Factors)
    requires row { IsRow row.old }
    requires same_width { width_of row.old ≡ width_of pivot_row.now }
    requires own { pos 0 <ℤ factors.now.own }
    requires fits { growth_by factors.now row.old pivot_row.now ≡ None }
    ensures { row.new ≡ reduced (combination factors.now row.old pivot_row.now) }
{
    combine_numbers(&mut row.numbers, pivot_row.numbers.as_slice(), factors);
    row.den = factors.own * row.den;
    reduce(row);
}

/// The numbers of the combination.
fn combine_numbers(numbers: &mut Entries<i128>, pivot_numbers: &[i128], factors: &Factors)
    requires same_width { length numbers.old ≡ length pivot_numbers.now }
    requires fits { (k : ℕ) → k < length numbers.old → PlaceFits factors.now (slice_index_or numbers.old k (pos 0)) (slice_index_or pivot_numbers.now k (pos 0)) }
    ensures { numbers.new ≡ list_below (λ k. combined_number factors.now (slice_index_or numbers.old k (pos 0)) (slice_index_or pivot_numbers.now k (pos 0))) (length numbers.old) }
{
    for column in 0..numbers.len() {
        let number = combined_number(factors, &numbers.as_slice()[column], &pivot_numbers[column]);
        numbers.set(column, number);
    }
}

/// Most numbers stay, beside a 0 of the pivot row.
#[inline(always)]
pub fn combined_number(factors: &Factors, number: &i128, pivot_number: &i128) -> i128
    requires { PlaceFits factors.now number.now pivot_number.now }
    ensures { result ≡ combined_number factors.now number.now pivot_number.now }
{
    if *pivot_number == 0 && factors.own == 1 {
        return *number;
    }
    factors.own * *number - factors.pivot * *pivot_number
}
