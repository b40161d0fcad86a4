ghost use Rattle.row_store.specs.Table.{IsTable};

use crate::error::PivotError;
use crate::first::first_rows;
use crate::pivoting::pivot;
use crate::problem::Rows;
use crate::sparse_scanning::{first_entering, least_ratio};
use crate::store::RowStore;
use entries::NoMemory;
use frac_row::{SparseRow, turn};
use std::alloc::Global;

/// A table that holds of each row the numbers that are not 0.
#[derive(Drop)]
pub struct Sparse {
    pub(crate) rows: Vec<SparseRow>,
    pub(crate) alloc: Global,
    ghost is_table: { IsTable rows.items },
}

impl RowStore for Sparse {
    ghost content = { λ store. store.rows.items };

    fn start(alloc: Global, rows: &Rows) -> Result<Sparse, NoMemory> {
        Ok(Sparse {
            rows: first_rows(alloc, rows)?,
            alloc,
        })
    }

    fn height(&self) -> u32 {
        self.rows.len() as u32 - 2
    }

    fn number(&self, row: u32, column: u32) -> i128 {
        self.rows[row as usize].number(column)
    }

    fn den(&self, row: u32) -> i128 {
        self.rows[row as usize].den()
    }

    fn pivot(&mut self, row: u32, column: u32) -> Result<(), PivotError> {
        pivot(self.alloc, &mut self.rows, row, column)
    }

    fn turn(&mut self, row: u32) {
        turn(&mut self.rows[row as usize]);
    }

    /// Reads the numbers of the phase row and the cost row one after another.
    fn entering(&self, columns: u32) -> Option<u32> {
        first_entering(self.rows.as_slice(), columns)
    }

    /// Looks at the right side only where the number in the column is positive.
    fn leaving(&self, basis: &[u32], column: u32, right_side: u32) -> Option<u32> {
        least_ratio(self.rows.as_slice(), basis, column, right_side)
    }

    ghost is_table = { λ store. store.is_table };
}
