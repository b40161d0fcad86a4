ghost use Rattle.row_store.specs.Table.{IsTable};

use crate::error::PivotError;
use crate::first::first_rows;
use crate::pivoting::pivot;
use crate::problem::Rows;
use crate::store::RowStore;
use crate::turning::turn_row;
use entries::NoMemory;
use frac_row::FracRow;
use std::alloc::Global;

/// A table with all numbers of each row, one row after another.
#[derive(Drop)]
pub struct Dense {
    rows: Vec<FracRow>,
    alloc: Global,
    ghost is_table: { IsTable rows.items },
}

impl RowStore for Dense {
    ghost content = { λ store. store.rows.items };

    fn start(alloc: Global, rows: &Rows) -> Result<Dense, NoMemory> {
        Ok(Dense {
            rows: first_rows(alloc, rows)?,
            alloc,
        })
    }

    fn height(&self) -> u32 {
        self.rows.len() as u32 - 2
    }

    fn number(&self, row: u32, column: u32) -> i128 {
        self.rows[row as usize].number(column)
    }

    fn den(&self, row: u32) -> i128 {
        self.rows[row as usize].den
    }

    fn pivot(&mut self, row: u32, column: u32) -> Result<(), PivotError> {
        pivot(self.alloc, &mut self.rows, row, column)
    }

    fn turn(&mut self, row: u32) {
        turn_row(&mut self.rows[row as usize]);
    }

    ghost is_table = { λ store. store.is_table };
}
