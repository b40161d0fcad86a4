ghost use Rattle.std.specs.Prelude.{◌≡◌, ◌+◌, ◌<◌, ◌≤◌, ◌^◌, ◌↔◌, ℕ, All, length, IsTrue};
ghost use Rattle.frac_row.specs.Outgrown.{IsWithin};
ghost use Rattle.row_store.specs.Problem.{IsProblem, IsColumnWithin};

use crate::first::entry;
use crate::problem::Rows;
use frac_row::{Line, with_sizes};

/// Whether the lines have one number for each real column and a right side, and there are as many costs,
/// few enough of all to be numbered, and nothing in their first table is outgrown.
pub fn is_problem(rows: &Rows) -> bool
    ensures { IsTrue result ↔ IsProblem rows.now }
{
    has_few(rows)
        && have_width(rows.lines.as_slice(), rows.columns)
        && rows.costs.len() == rows.columns as usize
        && are_within(rows.costs.as_slice())
        && (are_lines_within(rows) || are_columns_within(rows))
}

fn has_few(rows: &Rows) -> bool
    ensures { IsTrue result ↔ (rows.now.columns + length rows.now.lines + 2 < 2 ^ 32) }
{
    let height = rows.lines.len();
    let columns = rows.columns as usize;
    height < FEW && columns + height + 2 < FEW
}

const FEW: usize = 1 << 32;

fn have_width(lines: &[Line], columns: u32) -> bool
    ensures { IsTrue result ↔ All (λ line. length line ≡ columns + 1) lines.now }
{
    let width = columns as usize + 1;
    for place in 0..lines.len() {
        if lines[place].len() != width {
            return false;
        }
    }
    true
}

/// Whether none of the numbers is outgrown.
pub fn are_within(costs: &[i128]) -> bool
    ensures { IsTrue result ↔ All IsWithin costs.now }
{
    for place in 0..costs.len() {
        if costs[place] == i128::MIN {
            return false;
        }
    }
    true
}

/// Whether the sizes of all numbers of the lines come to no outgrown number, so that those of no column do:
/// mostly one look at each number decides.
fn are_lines_within(rows: &Rows) -> bool
    requires few { rows.now.columns + length rows.now.lines + 2 < 2 ^ 32 }
    requires widths { All (λ line. length line ≡ rows.now.columns + 1) rows.now.lines }
    ensures { IsTrue result → (column : ℕ) → column ≤ rows.now.columns → IsColumnWithin rows.now column }
{
    let lines = rows.lines.as_slice();
    let mut sum = 0;
    for line in 0..lines.len() {
        let Some(more) = with_sizes(&lines[line], sum) else {
            return false;
        };
        sum = more;
    }
    true
}

fn are_columns_within(rows: &Rows) -> bool
    requires few { rows.now.columns + length rows.now.lines + 2 < 2 ^ 32 }
    requires widths { All (λ line. length line ≡ rows.now.columns + 1) rows.now.lines }
    ensures { IsTrue result ↔ ((column : ℕ) → column ≤ rows.now.columns → IsColumnWithin rows.now column) }
{
    for column in 0..rows.columns + 1 {
        if !is_column_within(rows, column) {
            return false;
        }
    }
    true
}

fn is_column_within(rows: &Rows, column: u32) -> bool
    requires few { rows.now.columns + length rows.now.lines + 2 < 2 ^ 32 }
    requires widths { All (λ line. length line ≡ rows.now.columns + 1) rows.now.lines }
    requires column { column ≤ rows.now.columns }
    ensures { IsTrue result ↔ IsColumnWithin rows.now column }
{
    let mut sum = 0;
    for line in 0..rows.lines.len() as u32 {
        sum += entry(rows, line, column).unsigned_abs();
        if sum > i128::MAX as u128 {
            return false;
        }
    }
    true
}
