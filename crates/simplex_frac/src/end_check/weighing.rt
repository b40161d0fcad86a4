//! What columns and right sides weigh with values of the lines.
ghost use Rattle.std.specs.Prelude.{◌≡◌, ◌+◌, ◌<◌, ◌^◌, ℕ, pos, length, replicate, slice_index_or, IfOk, MatchBool};
ghost use Rattle.frac_row.specs.Outgrown.{IsWithin};
ghost use Rattle.row_store.specs.Problem.{IsProblem};
ghost use Rattle.simplex_frac.specs.end_check.Ends.{AreByLine, value_in};
ghost use Rattle.simplex_frac.specs.end_check.Sums.{AddWithin, WeighsWithin, sums_with, weights_of};

use crate::end_check::adding::plus_product;
use entries::NoMemory;
use row_store::{Line, Rows};
use std::alloc::Global;

/// So many zeros.
pub(crate) fn zeros(alloc: Global, count: usize) -> Result<Vec<i128>, NoMemory>
    ensures { IfOk result (λ made. made.items ≡ replicate count (pos 0)) }
{
    Ok(Vec::from_elem(alloc, 0, count)?)
}

/// Adds to zeros what the lines have in each column, and over the right sides, each line times its value; unless a number is
/// outgrown on the way.
pub(crate) fn weigh(weights: &mut Vec<i128>, rows: &Rows, values: &[i128]) -> bool
    requires problem { IsProblem rows.now }
    requires values { AreByLine rows.now values.now }
    requires zeros { weights.old.items ≡ replicate (rows.now.columns + 1) (pos 0) }
    ensures { MatchBool result
        ((WeighsWithin rows.now (value_in values.now)) × (weights.new.items ≡ weights_of rows.now (value_in values.now) (length rows.now.lines)))
        (¬ (WeighsWithin rows.now (value_in values.now))) }
{
    let lines = rows.lines.as_slice();
    for line in 0..lines.len() {
        if !add_multiple(weights, &lines[line], &values[line]) {
            return false;
        }
    }
    true
}

// Adds a multiple of a line to sums of columns, unless a number is outgrown on the way.
fn add_multiple(sums: &mut Vec<i128>, line: &Line, value: &i128) -> bool
    requires few { length line.now < 2 ^ 32 }
    requires same_length { length line.now ≡ length sums.old.items }
    requires within { (column : ℕ) → IsWithin (slice_index_or sums.old.items column (pos 0)) }
    ensures { MatchBool result
        ((AddWithin sums.old.items value.now line.now) × (sums.new.items ≡ sums_with sums.old.items value.now line.now))
        (¬ (AddWithin sums.old.items value.now line.now)) }
{
    let mut left = line.numbers();
    while let Some(entry) = left.next() {
        let column = entry.column as usize;
        let Some(sum) = plus_product(&sums[column], value, &entry.number) else {
            return false;
        };
        sums[column] = sum;
    }
    true
}
