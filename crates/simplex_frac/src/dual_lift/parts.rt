//! The parts of a scale that columns have at the last table's basic point.
ghost use Rattle.std.specs.Prelude.{◌≡◌, ◌<◌, pos, ◌<ℤ◌, ◌≤ℤ◌, length, IfOk, unsigned_abs};
ghost use Rattle.frac_row.specs.Outgrown.{IsWithin};
ghost use Rattle.row_store.specs.Table.{HasColumns, height_of, right_side};
ghost use Rattle.simplex_frac.specs.dual_lift.Parts.{AreParts, HaveParts, part_below, part_of};

use crate::dual_lift::numbers::{common_divisor, quotient};
use crate::dual_lift::rows::{line_den, right_side};
use entries::NoMemory;
use row_store::RowStore;
use std::alloc::Global;

/// How many parts of a scale each of the first columns has, column by column: a basic one its line's right side, any other
/// none. The table has so many real columns.
pub fn column_parts<R: RowStore>(
    alloc: Global,
    table: &R,
    basis: &[u32],
    columns: u32,
    wanted: u32,
    scale: &i128,
) -> Result<Vec<i128>, NoMemory>
    requires basis { length basis.now ≡ height_of (R.content table.now) }
    requires columns { HasColumns (R.content table.now) columns }
    requires scale { pos 0 <ℤ scale.now }
    requires parts { HaveParts (R.content table.now) basis.now wanted (unsigned_abs scale.now) }
    ensures { IfOk result (λ parts. AreParts (part_below (R.content table.now) basis.now (unsigned_abs scale.now) (height_of (R.content table.now))) wanted parts.items) }
{
    let mut parts = no_parts(alloc, wanted)?;
    for line in 0..table.height() {
        let column = basis[line as usize];
        if column < wanted {
            parts[column as usize] = part(table, columns, line, scale);
        }
    }
    Ok(parts)
}

// No part of any column.
fn no_parts(alloc: Global, columns: u32) -> Result<Vec<i128>, NoMemory>
    ensures { IfOk result (λ parts. AreParts (λ column. 0) columns parts.items) }
{
    let mut parts = Vec::new(alloc);
    for _ in 0..columns {
        parts.push(0)?;
    }
    Ok(parts)
}

// The right side of a line in parts of the scale.
fn part<R: RowStore>(table: &R, columns: u32, line: u32, scale: &i128) -> i128
    requires columns { HasColumns (R.content table.now) columns }
    requires line { line < height_of (R.content table.now) }
    requires scale { pos 0 <ℤ scale.now }
    requires some { pos 0 ≤ℤ right_side (R.content table.now) line }
    requires few { IsWithin (pos (part_of (R.content table.now) (unsigned_abs scale.now) line)) }
    ensures { result ≡ pos (part_of (R.content table.now) (unsigned_abs scale.now) line) }
{
    let den = line_den(table, line);
    let number = right_side(table, columns, line);
    let divisor = common_divisor(&number, &den);
    let times = quotient(scale, &quotient(&den, &divisor));
    quotient(&number, &divisor) * times
}
