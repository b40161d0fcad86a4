ghost use Rattle.std.specs.Prelude.{◌≡◌, ◌+◌, ◌<◌, ◌≤◌, length, All, IfOk};
ghost use Rattle.row_store.specs.Problem.{IsProblem, entry, first_table};

use crate::problem::Rows;
use crate::sparse_first::first_row;
use crate::table_row::TableRow;
use entries::NoMemory;
use std::alloc::Global;

/// The rows of the first table: the lines, the phase row, the cost row.
pub fn first_rows<R: TableRow>(alloc: Global, rows: &Rows) -> Result<Vec<R>, NoMemory>
    requires { IsProblem rows.now }
    ensures { IfOk result (λ made. R.table made.items ≡ first_table rows.now) }
{
    let mut made = Vec::new(alloc);
    for row in 0..rows.lines.len() as u32 + 2 {
        made.push(R::of_sparse(alloc, first_row(alloc, rows, row)?)?)?;
    }
    Ok(made)
}

/// The number of a line in a real column, or in the column after them its right side.
pub fn entry(rows: &Rows, line: u32, column: u32) -> i128
    requires widths { All (λ line. length line ≡ rows.now.columns + 1) rows.now.lines }
    requires line { line < length rows.now.lines }
    requires column { column ≤ rows.now.columns }
    ensures { result ≡ entry rows.now line column }
{
    rows.lines.as_slice()[line as usize].number(column)
}
