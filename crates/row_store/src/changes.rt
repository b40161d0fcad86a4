ghost use Rattle.std.specs.Prelude.{◌≡◌, ◌<◌, ℕ, pos, ◌<ℤ◌, None, length, IfOk};
ghost use Rattle.sums.specs.Places.{list_below};
ghost use Rattle.row_store.specs.Table.{IsTable, row_at, number_at, columns_of};
ghost use Rattle.row_store.specs.Pivot.{new_row, pivot_growth};
ghost use Rattle.row_store.specs.Changes.{row_after, value_or};

use crate::table_row::TableRow;
use entries::NoMemory;
use std::alloc::Global;

/// What a pivot makes of each row, and nothing of a row that stays. Nothing is outgrown.
pub fn changed_rows<R: TableRow>(
    alloc: Global,
    rows: &[R],
    row: u32,
    column: u32,
) -> Result<Vec<Option<R>>, NoMemory>
    requires table { IsTable (R.table rows.now) }
    requires row { row < length (R.table rows.now) }
    requires column { column < columns_of (R.table rows.now) }
    requires positive { pos 0 <ℤ number_at (R.table rows.now) row column }
    requires fits { pivot_growth (R.table rows.now) row column ≡ None }
    ensures same_length { IfOk result (λ changes. length changes.items ≡ length rows.now) }
    ensures made { IfOk result (λ changes. (place : ℕ) → place < length (R.table rows.now) → row_after R.full (R.table rows.now) changes.items place ≡ new_row (R.table rows.now) row column place) }
{
    let mut changes = Vec::with_capacity(alloc, rows.len())?;
    for other in 0..rows.len() {
        changes.push(changed_row(alloc, rows, row, column, other as u32)?)?;
    }
    Ok(changes)
}

fn changed_row<R: TableRow>(
    alloc: Global,
    rows: &[R],
    row: u32,
    column: u32,
    other: u32,
) -> Result<Option<R>, NoMemory>
    requires table { IsTable (R.table rows.now) }
    requires row { row < length (R.table rows.now) }
    requires column { column < columns_of (R.table rows.now) }
    requires positive { pos 0 <ℤ number_at (R.table rows.now) row column }
    requires fits { pivot_growth (R.table rows.now) row column ≡ None }
    requires other { other < length (R.table rows.now) }
    ensures { IfOk result (λ made. value_or R.full made (row_at (R.table rows.now) other) ≡ new_row (R.table rows.now) row column other) }
{
    let pivot_row = &rows[row as usize];
    if other == row {
        return Ok(Some(pivot_row.scaled(alloc, column)?));
    }
    let old_row = &rows[other as usize];
    if old_row.number(column) == 0 {
        return Ok(None);
    }
    Ok(Some(old_row.combined(alloc, pivot_row, column)?))
}

/// Puts rows in their places. Takes no memory.
pub fn put_rows<R: TableRow>(rows: &mut Vec<R>, changes: Vec<Option<R>>)
    requires { length changes.items ≡ length rows.old.items }
    ensures { R.table rows.new.items ≡ list_below (row_after R.full (R.table rows.old.items) changes.items) (length (R.table rows.old.items)) }
{
    let mut left = changes;
    while let Some(change) = left.pop() {
        if let Some(fresh) = change {
            rows[left.len()] = fresh;
        }
    }
}
