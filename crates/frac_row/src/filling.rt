ghost use Rattle.std.specs.Prelude.{◌≡◌, ◌<◌, ◌≤◌, ◌^◌, ℕ, ℤ, pos, length, slice_index_or, slice_set, IfOk, OnErr};
ghost use Rattle.sums.specs.Places.{list_below};
ghost use Rattle.frac_row.specs.Row.{number_of, width_of};
ghost use Rattle.frac_row.specs.Lines.{IsFilledRow};

use crate::entry::Entry;
use crate::line::Line;
use crate::sparse_row::SparseRow;
use entries::NoMemory;
use std::alloc::Global;

impl SparseRow {
    /// A row of zeros over 1. Takes no memory.
    pub fn zeros(alloc: Global, width: u32) -> SparseRow
        ensures { result ≡ record { numbers = list_below (λ column. pos 0) width; den = pos 1 } }
    {
        SparseRow {
            entries: Vec::new(alloc),
            width,
            den: 1,
        }
    }

    /// The same numbers over another denominator.
    pub fn over(self, den: i128) -> SparseRow
        ensures { result ≡ record { numbers = self.numbers; den = den } }
    {
        SparseRow {
            entries: self.entries,
            width: self.width,
            den,
        }
    }

    /// Puts a number into a column, from which on the row has only zeros.
    pub fn put(&mut self, column: u32, number: i128) -> Result<(), NoMemory>
        requires in_row { column < width_of self.old }
        requires zeros { (place : ℕ) → column ≤ place → number_of self.old place ≡ pos 0 }
        ensures put { IfOk result (λ _. self.new ≡ record { numbers = slice_set self.old.numbers column number; den = self.old.den }) }
        ensures unchanged { OnErr result (self.new ≡ self.old) }
    {
        if number == 0 {
            return Ok(());
        }
        if self.entries.push(Entry { column, number }).is_err() {
            return Err(NoMemory);
        }
        Ok(())
    }
}

/// A row over 1 with the first numbers of a line, and zeros behind them.
pub fn begun(alloc: Global, line: &Line, columns: u32, width: u32) -> Result<SparseRow, NoMemory>
    requires few { length line.now < 2 ^ 32 }
    requires columns { columns ≤ width }
    requires in_line { columns ≤ length line.now }
    ensures { IfOk result (λ row. IsFilledRow row (λ column. slice_index_or line.now column (pos 0)) width columns) }
{
    let mut made = SparseRow::zeros(alloc, width);
    let mut left = line.numbers();
    while let Some(entry) = left.next() {
        if entry.column >= columns {
            return Ok(made);
        }
        made.put(entry.column, entry.number)?;
    }
    Ok(made)
}
