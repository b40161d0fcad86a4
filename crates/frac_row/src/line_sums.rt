ghost use Rattle.std.specs.Prelude.{◌≡◌, ◌+◌, ◌-◌, ◌<◌, ◌≤◌, ◌^◌, ℕ, pos, ◌+ℤ◌, length, slice_index_or, unsigned_abs, MatchOption};
ghost use Rattle.sums.specs.Below.{sum_below};
ghost use Rattle.sums.specs.Places.{list_below};
ghost use Rattle.frac_row.specs.Outgrown.{IsWithin};

use crate::line::Line;

/// A sum and the sizes of all numbers of a line, unless that is outgrown.
pub fn with_sizes(line: &Line, sum: u128) -> Option<u128>
    requires few { length line.now < 2 ^ 32 }
    requires within { sum ≤ 2 ^ 127 - 1 }
    ensures { MatchOption result (2 ^ 127 - 1 < sum + sum_below (λ column. unsigned_abs (slice_index_or line.now column (pos 0))) (length line.now)) (λ more. (more ≡ sum + sum_below (λ column. unsigned_abs (slice_index_or line.now column (pos 0))) (length line.now)) × (more ≤ 2 ^ 127 - 1)) }
{
    let mut total = sum;
    let mut left = line.numbers();
    while let Some(entry) = left.next() {
        total += entry.number.unsigned_abs();
        if total > LIMIT {
            return None;
        }
    }
    Some(total)
}

const LIMIT: u128 = i128::MAX as u128;

/// Adds the numbers of a line to sums of columns.
pub fn add_line(sums: &mut Vec<i128>, line: &Line)
    requires few { length line.now < 2 ^ 32 }
    requires same_length { length line.now ≡ length sums.old.items }
    requires fits { (column : ℕ) → IsWithin (slice_index_or sums.old.items column (pos 0) +ℤ slice_index_or line.now column (pos 0)) }
    ensures { sums.new.items ≡ list_below (λ column. slice_index_or sums.old.items column (pos 0) +ℤ slice_index_or line.now column (pos 0)) (length sums.old.items) }
{
    let mut left = line.numbers();
    while let Some(entry) = left.next() {
        sums[entry.column as usize] += entry.number;
    }
}
