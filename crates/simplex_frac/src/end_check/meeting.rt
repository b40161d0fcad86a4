//! What lines, and costs, come to at a point.
ghost use Rattle.std.specs.Prelude.{◌≡◌, ◌+◌, ◌<◌, ◌^◌, ℕ, pos, neg_ℤ, length, ◌*ℤ◌, slice_index_or, MatchBool, MatchOption};
ghost use Rattle.sums.specs.Below.{sum_below_ℤ};
ghost use Rattle.row_store.specs.Problem.{IsProblem};
ghost use Rattle.simplex_frac.specs.end_check.Ends.{part_in, value_in};
ghost use Rattle.simplex_frac.specs.end_check.Sums.{MeetsLine, SumsWithin, share_in};

use crate::end_check::adding::plus_product;
use row_store::{Line, Rows};

/// Whether each line comes to its right side, and no number is outgrown on the way.
pub(crate) fn meets_lines(rows: &Rows, point: &[u64], scale: u64) -> bool
    requires { IsProblem rows.now }
    ensures { MatchBool result
        ((line : ℕ) → line < length rows.now.lines → MeetsLine rows.now point.now scale line)
        (¬ ((line : ℕ) → line < length rows.now.lines → MeetsLine rows.now point.now scale line)) }
{
    for line in 0..rows.lines.len() {
        if !meets_line(rows, point, scale, line) {
            return false;
        }
    }
    true
}

// Whether a line does.
fn meets_line(rows: &Rows, point: &[u64], scale: u64, line: usize) -> bool
    requires problem { IsProblem rows.now }
    requires line { line < length rows.now.lines }
    ensures { MatchBool result (MeetsLine rows.now point.now scale line) (¬ (MeetsLine rows.now point.now scale line)) }
{
    match surplus(&rows.lines.as_slice()[line], point, scale) {
        Some(surplus) => surplus == 0,
        None => false,
    }
}

// What a line comes to, less its right side, unless a number is outgrown on the way.
fn surplus(line: &Line, point: &[u64], scale: u64) -> Option<i128>
    requires { length line.now < 2 ^ 32 }
    ensures { MatchOption result
        (¬ (SumsWithin (value_in line.now) (share_in point.now scale) (length line.now)))
        (λ surplus. (SumsWithin (value_in line.now) (share_in point.now scale) (length line.now))
        × (surplus ≡ sum_below_ℤ (λ column. value_in line.now column *ℤ share_in point.now scale column) (length line.now))) }
{
    let mut total = 0;
    let mut left = line.numbers();
    while let Some(entry) = left.next() {
        let share = share(point, scale, entry.column);
        let Some(more) = plus_product(&total, &entry.number, &share) else {
            return None;
        };
        total = more;
    }
    Some(total)
}

// By what a column's number is multiplied: its part of the scale, and the right side by the scale with the other sign.
#[tactic(auto, unfolding(crate::specs::end_check::Sums::share_in))]
fn share(point: &[u64], scale: u64, column: u32) -> i128
    ensures { result ≡ share_in point.now scale column }
{
    let column = column as usize;
    if column < point.len() {
        part(point, column)
    } else {
        opposite(scale)
    }
}

// A scale with the other sign.
fn opposite(scale: u64) -> i128
    ensures { result ≡ neg_ℤ (pos scale) }
{
    -i128::from(scale)
}

/// What a point costs times its scale, unless a number is outgrown on the way.
pub(crate) fn cost_at(costs: &[i128], point: &[u64]) -> Option<i128>
    requires { length costs.now ≡ length point.now }
    ensures { MatchOption result
        (¬ (SumsWithin (value_in costs.now) (λ column. pos (part_in point.now column)) (length costs.now)))
        (λ cost. (SumsWithin (value_in costs.now) (λ column. pos (part_in point.now column)) (length costs.now))
        × (cost ≡ sum_below_ℤ (λ column. value_in costs.now column *ℤ pos (part_in point.now column)) (length costs.now))) }
{
    let mut total = 0;
    for column in 0..costs.len() {
        let part = part(point, column);
        let Some(more) = plus_product(&total, &costs[column], &part) else {
            return None;
        };
        total = more;
    }
    Some(total)
}

// The part of a column.
fn part(point: &[u64], column: usize) -> i128
    requires { column < length point.now }
    ensures { result ≡ pos (part_in point.now column) }
{
    i128::from(point[column])
}
