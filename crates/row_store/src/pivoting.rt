ghost use Rattle.std.specs.Prelude.{◌≡◌, ◌<◌, ◌^◌, pos, ◌<ℤ◌, None, length, IsTrue, IfOk, OnErr, IfErr};
ghost use Rattle.frac_row.specs.Row.{IsRow, IsSmall, number_of, width_of};
ghost use Rattle.row_store.specs.Table.{IsTable, row_at, number_at, columns_of};
ghost use Rattle.row_store.specs.Pivot.{clearing_growth, pivoted, row_growth, pivot_growth};
ghost use Rattle.row_store.specs.PivotAnswers.{IsPivotError};

use crate::changes::{changed_rows, put_rows};
use crate::error::{PivotError, Place, place_in};
use crate::table_row::TableRow;
use frac_row::Growth;
use std::alloc::Global;

/// Makes the column a unit column with its 1 in the row. All rows that change are made before the first one is
/// put in its place, so that want of memory leaves the table as it was.
pub fn pivot<R: TableRow>(
    alloc: Global,
    rows: &mut Vec<R>,
    row: u32,
    column: u32,
) -> Result<(), PivotError>
    requires table { IsTable (R.table rows.old.items) }
    requires row { row < length (R.table rows.old.items) }
    requires column { column < columns_of (R.table rows.old.items) }
    requires positive { pos 0 <ℤ number_at (R.table rows.old.items) row column }
    ensures table { IsTable (R.table rows.new.items) }
    ensures pivoted { IfOk result (λ _. R.table rows.new.items ≡ pivoted (R.table rows.old.items) row column) }
    ensures fits { IfOk result (λ _. pivot_growth (R.table rows.old.items) row column ≡ None) }
    ensures grew { IfErr result (IsPivotError (R.table rows.old.items) row column) }
    ensures unchanged { OnErr result (R.table rows.new.items ≡ R.table rows.old.items) }
{
    if let Some(place) = pivot_growth(rows.as_slice(), row, column) {
        return Err(PivotError::Grew {
            row: place.row,
            column: place.column,
        });
    }
    let Ok(changes) = changed_rows(alloc, rows.as_slice(), row, column) else {
        return Err(PivotError::NoMemory);
    };
    put_rows(rows, changes);
    Ok(())
}

/// The place of the first outgrown product or difference of a pivot.
pub fn pivot_growth<R: TableRow>(rows: &[R], row: u32, column: u32) -> Option<Place>
    requires table { IsTable (R.table rows.now) }
    requires row { row < length (R.table rows.now) }
    requires column { column < columns_of (R.table rows.now) }
    requires positive { pos 0 <ℤ number_at (R.table rows.now) row column }
    ensures { result ≡ pivot_growth (R.table rows.now) row column }
{
    let is_pivot_small = rows[row as usize].is_small();
    for other in 0..rows.len() {
        let growth = row_growth(rows, row, column, other as u32, is_pivot_small);
        if growth.is_some() {
            return growth;
        }
    }
    None
}

/// That of one row.
fn row_growth<R: TableRow>(
    rows: &[R],
    row: u32,
    column: u32,
    other: u32,
    is_pivot_small: bool,
) -> Option<Place>
    requires table { IsTable (R.table rows.now) }
    requires row { row < length (R.table rows.now) }
    requires column { column < columns_of (R.table rows.now) }
    requires positive { pos 0 <ℤ number_at (R.table rows.now) row column }
    requires other { other < length (R.table rows.now) }
    requires small { IsTrue is_pivot_small → IsSmall (row_at (R.table rows.now) row) }
    ensures { result ≡ row_growth (R.table rows.now) row column other }
{
    if other == row {
        return None;
    }
    let growth = clearing_growth(
        &rows[other as usize],
        &rows[row as usize],
        column,
        is_pivot_small,
    );
    place_in(other, growth)
}

/// The first outgrown product or difference on the way to a row without its number in the column. Two
/// small rows have none, and that is quickly seen.
fn clearing_growth<R: TableRow>(
    row: &R,
    pivot_row: &R,
    column: u32,
    is_pivot_small: bool,
) -> Option<Growth>
    requires row { IsRow (R.full row.now) }
    requires pivot_row { IsRow (R.full pivot_row.now) }
    requires same_width { width_of (R.full row.now) ≡ width_of (R.full pivot_row.now) }
    requires columns { width_of (R.full row.now) < 2 ^ 32 }
    requires in_row { column < width_of (R.full row.now) }
    requires positive { pos 0 <ℤ number_of (R.full pivot_row.now) column }
    requires small { IsTrue is_pivot_small → IsSmall (R.full pivot_row.now) }
    ensures { result ≡ clearing_growth (R.full row.now) (R.full pivot_row.now) column }
{
    if row.number(column) == 0 {
        return None;
    }
    if is_pivot_small && row.is_small() {
        return None;
    }
    row.growth(pivot_row, column)
}
