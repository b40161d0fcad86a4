ghost use Rattle.std.specs.Prelude.{◌≡◌, ◌+◌, ◌<◌, ◌≤◌, length, neg_ℤ, IfOk};
ghost use Rattle.sums.specs.Below.{sum_below_ℤ};
ghost use Rattle.sums.specs.Places.{list_below};
ghost use Rattle.row_store.specs.Problem.{IsProblem, entry, first_row};

use crate::problem::Rows;
use entries::NoMemory;
use frac_row::{SparseRow, add_line, begun};
use std::alloc::Global;

/// The row of this number: that of a line, and after all lines the phase row and the cost row.
pub fn first_row(alloc: Global, rows: &Rows, row: u32) -> Result<SparseRow, NoMemory>
    requires problem { IsProblem rows.now }
    requires row { row < length rows.now.lines + 2 }
    ensures { IfOk result (λ made. made ≡ first_row rows.now row) }
{
    let height = rows.lines.len() as u32;
    if row < height {
        return line_row(alloc, rows, row);
    }
    if row == height {
        return phase_row(alloc, rows);
    }
    cost_row(alloc, rows)
}

/// The numbers of a line, its 1 in the identity block, its right side.
fn line_row(alloc: Global, rows: &Rows, line: u32) -> Result<SparseRow, NoMemory>
    requires problem { IsProblem rows.now }
    requires line { line < length rows.now.lines }
    ensures { IfOk result (λ made. made ≡ first_row rows.now line) }
{
    let columns = rows.columns;
    let right_side = columns + rows.lines.len() as u32;
    let numbers = &rows.lines.as_slice()[line as usize];
    let mut made = begun(alloc, numbers, columns, right_side + 1)?;
    made.put(columns + line, 1)?;
    made.put(right_side, numbers.number(columns))?;
    Ok(made)
}

/// What the lines sum to with the other sign.
fn phase_row(alloc: Global, rows: &Rows) -> Result<SparseRow, NoMemory>
    requires { IsProblem rows.now }
    ensures { IfOk result (λ made. made ≡ first_row rows.now (length rows.now.lines)) }
{
    let columns = rows.columns;
    let right_side = columns + rows.lines.len() as u32;
    let sums = column_sums(alloc, rows)?;
    let mut made = SparseRow::zeros(alloc, right_side + 1);
    for column in 0..columns {
        made.put(column, phase_number(rows, sums.as_slice(), column))?;
    }
    made.put(right_side, phase_number(rows, sums.as_slice(), columns))?;
    Ok(made)
}

/// The sum of a column with the other sign.
fn phase_number(rows: &Rows, sums: &[i128], column: u32) -> i128
    requires problem { IsProblem rows.now }
    requires sums { sums.now ≡ list_below (λ column. sum_below_ℤ (λ line. entry rows.now line column) (length rows.now.lines)) (rows.now.columns + 1) }
    requires column { column ≤ rows.now.columns }
    ensures { result ≡ neg_ℤ (sum_below_ℤ (λ line. entry rows.now line column) (length rows.now.lines)) }
{
    -sums[column as usize]
}

/// What the lines have in each real column and as right sides, summed.
fn column_sums(alloc: Global, rows: &Rows) -> Result<Vec<i128>, NoMemory>
    requires { IsProblem rows.now }
    ensures { IfOk result (λ sums. sums.items ≡ list_below (λ column. sum_below_ℤ (λ line. entry rows.now line column) (length rows.now.lines)) (rows.now.columns + 1)) }
{
    let lines = rows.lines.as_slice();
    let mut sums = Vec::from_elem(alloc, 0, rows.columns as usize + 1)?;
    for line in 0..lines.len() {
        add_line(&mut sums, &lines[line]);
    }
    Ok(sums)
}

/// The costs.
fn cost_row(alloc: Global, rows: &Rows) -> Result<SparseRow, NoMemory>
    requires { IsProblem rows.now }
    ensures { IfOk result (λ made. made ≡ first_row rows.now (length rows.now.lines + 1)) }
{
    let columns = rows.columns;
    let costs = rows.costs.as_slice();
    let width = columns + rows.lines.len() as u32 + 1;
    let mut made = SparseRow::zeros(alloc, width);
    for column in 0..columns {
        made.put(column, costs[column as usize])?;
    }
    Ok(made)
}
