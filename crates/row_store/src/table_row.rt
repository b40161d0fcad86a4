ghost use Rattle.std.specs.Prelude.{◌≡◌, ◌<◌, ◌^◌, ◌↔◌, List, map, pos, ◌<ℤ◌, None, IsTrue, IfOk};
ghost use Rattle.std.proofs.Common.{sym};
ghost use Rattle.std.proofs.lemmas.List.{map-id};
ghost use Rattle.frac_row.specs.declared.row.FracRow.{FracRow};
ghost use Rattle.frac_row.specs.Row.{IsRow, IsSmall, number_of, width_of};
ghost use Rattle.frac_row.specs.Combined.{combined_row, growth_of};
ghost use Rattle.row_store.specs.Pivot.{scaled_row};

use entries::{Entries, NoMemory};
use frac_row::sparse_combining::combine;
use frac_row::sparse_growth::growth_by as sparse_growth_by;
use frac_row::{
    Factors, FracRow, Growth, SparseRow, combine_in_place, factors_between, growth_by, reduce,
};
use std::alloc::Global;

/// A row of a table, with all its numbers or with those other than 0 alone.
pub trait TableRow: Sized + Drop {
    ghost full: { Self → FracRow };

    ghost table: { List Self → List FracRow };

    /// The row that holds these numbers.
    fn of_sparse(alloc: Global, row: SparseRow) -> Result<Self, NoMemory>
        ensures { IfOk result (λ made. full made ≡ row) };

    /// The number in a column.
    fn number(&self, column: u32) -> i128
        requires { column < width_of (full self.now) }
        ensures { result ≡ number_of (full self.now) column };

    /// Whether all numbers and the denominator are small, so that nothing of two such rows is outgrown.
    fn is_small(&self) -> bool
        ensures { IsTrue result ↔ IsSmall (full self.now) };

    /// The first outgrown product or difference on the way to the combination with a pivot row that leaves 0
    /// in the column.
    fn growth(&self, pivot_row: &Self, column: u32) -> Option<Growth>
        requires row { IsRow (full self.now) }
        requires pivot_row { IsRow (full pivot_row.now) }
        requires same_width { width_of (full self.now) ≡ width_of (full pivot_row.now) }
        requires columns { width_of (full self.now) < 2 ^ 32 }
        requires in_row { column < width_of (full self.now) }
        requires positive { pos 0 <ℤ number_of (full pivot_row.now) column }
        ensures { result ≡ growth_of (full self.now) (full pivot_row.now) column };

    /// The row over its number in a column, in lowest terms.
    fn scaled(&self, alloc: Global, column: u32) -> Result<Self, NoMemory>
        requires row { IsRow (full self.now) }
        requires in_row { column < width_of (full self.now) }
        requires positive { pos 0 <ℤ number_of (full self.now) column }
        ensures { IfOk result (λ made. full made ≡ scaled_row (full self.now) column) };

    /// The combination with a pivot row that leaves 0 in the column, in lowest terms. Nothing is outgrown on
    /// the way.
    fn combined(&self, alloc: Global, pivot_row: &Self, column: u32) -> Result<Self, NoMemory>
        requires row { IsRow (full self.now) }
        requires pivot_row { IsRow (full pivot_row.now) }
        requires same_width { width_of (full self.now) ≡ width_of (full pivot_row.now) }
        requires in_row { column < width_of (full self.now) }
        requires positive { pos 0 <ℤ number_of (full pivot_row.now) column }
        requires fits { growth_of (full self.now) (full pivot_row.now) column ≡ None }
        ensures { IfOk result (λ made. full made ≡ combined_row (full self.now) (full pivot_row.now) column) };

    ghost mapped: { (rows : List Self) → table rows ≡ map full rows };
}

impl TableRow for FracRow {
    ghost full = { λ row. row };

    ghost table = { λ rows. rows };

    fn of_sparse(alloc: Global, row: SparseRow) -> Result<FracRow, NoMemory> {
        full_row(alloc, &row)
    }

    fn number(&self, column: u32) -> i128 {
        self.number(column)
    }

    fn is_small(&self) -> bool {
        frac_row::is_small(self)
    }

    fn growth(&self, pivot_row: &FracRow, column: u32) -> Option<Growth> {
        growth_by(&Factors::between(self, pivot_row, column), self, pivot_row)
    }

    fn scaled(&self, alloc: Global, column: u32) -> Result<FracRow, NoMemory> {
        let mut made = self.copy(alloc)?;
        made.den = self.number(column);
        reduce(&mut made);
        Ok(made)
    }

    fn combined(
        &self,
        alloc: Global,
        pivot_row: &FracRow,
        column: u32,
    ) -> Result<FracRow, NoMemory> {
        let factors = Factors::between(self, pivot_row, column);
        let mut made = self.copy(alloc)?;
        combine_in_place(&mut made, pivot_row, &factors);
        Ok(made)
    }

    ghost mapped = { λ rows. sym (map-id rows) };
}

impl TableRow for SparseRow {
    ghost full = { λ row. row };

    ghost table = { λ rows. rows };

    fn of_sparse(_alloc: Global, row: SparseRow) -> Result<SparseRow, NoMemory> {
        Ok(row)
    }

    fn number(&self, column: u32) -> i128 {
        self.number(column)
    }

    fn is_small(&self) -> bool {
        frac_row::sparse_sizes::is_small(self)
    }

    fn growth(&self, pivot_row: &SparseRow, column: u32) -> Option<Growth> {
        sparse_growth_by(&factors_between(self, pivot_row, column), self, pivot_row)
    }

    fn scaled(&self, alloc: Global, column: u32) -> Result<SparseRow, NoMemory> {
        frac_row::scaled(alloc, self, column)
    }

    fn combined(
        &self,
        alloc: Global,
        pivot_row: &SparseRow,
        column: u32,
    ) -> Result<SparseRow, NoMemory> {
        combine(alloc, self, pivot_row, column)
    }

    ghost mapped = { λ rows. sym (map-id rows) };
}

/// The same row with all its numbers.
fn full_row(alloc: Global, row: &SparseRow) -> Result<FracRow, NoMemory>
    ensures { IfOk result (λ made. made ≡ row.now) }
{
    let mut numbers = Vec::new(alloc);
    for column in 0..row.width() {
        numbers.push(row.number(column))?;
    }
    Ok(FracRow {
        numbers: Entries::from_vec(numbers),
        den: row.den(),
    })
}
