//! The numbers of a last table, by their rows.
ghost use Rattle.std.specs.Prelude.{◌≡◌, ◌+◌, ◌-◌, ◌<◌, ◌≤◌, pos, ◌<ℤ◌};
ghost use Rattle.frac_row.specs.Outgrown.{IsWithin};
ghost use Rattle.row_store.specs.Table.{HasColumns, columns_of, height_of, number_at, right_side, row_at};
ghost use Rattle.simplex_frac.specs.dual_lift.Duals.{cost_den, cost_number, identity_column, phase_den, phase_number};

use row_store::RowStore;

/// The number of the phase row in a column.
pub fn phase_number<R: RowStore>(table: &R, column: u32) -> i128
    requires { column < columns_of (R.content table.now) }
    ensures value { result ≡ phase_number (R.content table.now) column }
    ensures within { IsWithin result }
{
    table.number(table.height(), column)
}

/// The number of the cost row in a column.
pub fn cost_number<R: RowStore>(table: &R, column: u32) -> i128
    requires { column < columns_of (R.content table.now) }
    ensures value { result ≡ cost_number (R.content table.now) column }
    ensures within { IsWithin result }
{
    table.number(table.height() + 1, column)
}

/// The number of a line's row in a column.
pub fn line_number<R: RowStore>(table: &R, line: u32, column: u32) -> i128
    requires line { line < height_of (R.content table.now) }
    requires column { column < columns_of (R.content table.now) }
    ensures value { result ≡ number_at (R.content table.now) line column }
    ensures within { IsWithin result }
{
    table.number(line, column)
}

/// The denominator of the phase row.
pub fn phase_den<R: RowStore>(table: &R) -> i128
    ensures value { result ≡ phase_den (R.content table.now) }
    ensures positive { pos 0 <ℤ result }
    ensures within { IsWithin result }
{
    table.den(table.height())
}

/// The denominator of the cost row.
pub fn cost_den<R: RowStore>(table: &R) -> i128
    ensures value { result ≡ cost_den (R.content table.now) }
    ensures positive { pos 0 <ℤ result }
    ensures within { IsWithin result }
{
    table.den(table.height() + 1)
}

/// The column of a line in the identity block, behind so many real columns.
pub fn identity_column<R: RowStore>(table: &R, columns: u32, line: u32) -> u32
    requires columns { HasColumns (R.content table.now) columns }
    requires line { line < height_of (R.content table.now) }
    ensures value { result ≡ identity_column (R.content table.now) line }
    ensures within { result < columns_of (R.content table.now) }
{
    columns + line
}

/// The right side of a line, behind so many real columns.
pub fn right_side<R: RowStore>(table: &R, columns: u32, line: u32) -> i128
    requires columns { HasColumns (R.content table.now) columns }
    requires line { line < height_of (R.content table.now) }
    ensures value { result ≡ right_side (R.content table.now) line }
    ensures within { IsWithin result }
{
    table.number(line, columns + table.height())
}

/// The denominator of a line.
pub fn line_den<R: RowStore>(table: &R, line: u32) -> i128
    requires { line < height_of (R.content table.now) }
    ensures value { result ≡ (row_at (R.content table.now) line).den }
    ensures positive { pos 0 <ℤ result }
    ensures within { IsWithin result }
{
    table.den(line)
}
