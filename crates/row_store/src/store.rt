ghost use Rattle.std.specs.Prelude.{◌≡◌, ◌≢◌, ◌+◌, ◌<◌, ◌≤◌, List, pos, ◌<ℤ◌, None, length, IfOk, OnErr, IfErr};
ghost use Rattle.frac_row.specs.declared.row.FracRow.{FracRow};
ghost use Rattle.row_store.specs.Table.{IsTable, number_at, row_at, columns_of, height_of, HasColumns};
ghost use Rattle.row_store.specs.Problem.{IsProblem, first_table};
ghost use Rattle.row_store.specs.Pivot.{pivoted, pivot_growth};
ghost use Rattle.row_store.specs.PivotAnswers.{IsPivotError, IsStepError};
ghost use Rattle.row_store.specs.Steps.{turned, stepped, step_growth};
ghost use Rattle.row_store.specs.Choice.{entering, leaving};

use crate::choice::{Candidate, better, improves, row_of};
use crate::error::PivotError;
use crate::problem::Rows;
use entries::NoMemory;
use frac_row::FracRow;
use std::alloc::Global;

/// A store of one table of the simplex method. Its rows are the lines, the phase row and the cost row;
/// its columns the real ones, the identity block and the right side. How it keeps them is its own matter.
pub trait RowStore: Sized {
    ghost content: { Self → List FracRow };

    /// The first table of the lines.
    fn start(alloc: Global, rows: &Rows) -> Result<Self, NoMemory>
        requires { IsProblem rows.now }
        ensures table { IfOk result (λ store. content store ≡ first_table rows.now) }
        ensures shape { IfOk result (λ store. HasColumns (content store) rows.now.columns) };

    /// How many lines there are: the row of this number is the phase row, and the next the cost row.
    fn height(&self) -> u32
        ensures { result + 2 ≡ length (content self.now) };

    /// The whole number at a place.
    fn number(&self, row: u32, column: u32) -> i128
        requires row { row < length (content self.now) }
        requires column { column < columns_of (content self.now) }
        ensures { result ≡ number_at (content self.now) row column };

    /// The denominator of a row.
    fn den(&self, row: u32) -> i128
        requires { row < length (content self.now) }
        ensures { result ≡ (row_at (content self.now) row).den };

    /// Makes the column a unit column with its 1 in the row. A refused pivot leaves the content as it was.
    fn pivot(&mut self, row: u32, column: u32) -> Result<(), PivotError>
        requires row { row < length (content self.old) }
        requires column { column < columns_of (content self.old) }
        requires positive { pos 0 <ℤ number_at (content self.old) row column }
        ensures pivoted { IfOk result (λ _. content self.new ≡ pivoted (content self.old) row column) }
        ensures fits { IfOk result (λ _. pivot_growth (content self.old) row column ≡ None) }
        ensures grew { IfErr result (IsPivotError (content self.old) row column) }
        ensures unchanged { OnErr result (content self.new ≡ content self.old) };

    /// The least improving one of the first columns: the phase row is negative there, or it is 0 and the
    /// cost row is negative.
    fn entering(&self, columns: u32) -> Option<u32>
        requires { columns ≤ columns_of (content self.now) }
        ensures { result ≡ entering (content self.now) columns }
    {
        let phase = self.height();
        for column in 0..columns {
            let phase_number = self.number(phase, column);
            let cost_number = self.number(phase + 1, column);
            if improves(&phase_number, &cost_number) {
                return Some(column);
            }
        }
        None
    }

    /// Of the lines with a positive number in the column the one with the least ratio of right side to
    /// that number, at a tie the one whose basic column is least.
    fn leaving(&self, basis: &[u32], column: u32, right_side: u32) -> Option<u32>
        requires basis { length basis.now ≡ height_of (content self.now) }
        requires column { column < columns_of (content self.now) }
        requires right_side { right_side + 1 ≡ columns_of (content self.now) }
        ensures { result ≡ leaving (content self.now) basis.now column }
    {
        let mut best = None;
        for row in 0..self.height() {
            let next = Candidate {
                row,
                basic: basis[row as usize],
                entry: self.number(row, column),
                right_side: self.number(row, right_side),
            };
            best = better(best, next);
        }
        row_of(best)
    }

    /// Turns the sign of all numbers of a line's row. Takes no memory.
    fn turn(&mut self, row: u32)
        requires { row < height_of (content self.old) }
        ensures { content self.new ≡ turned (content self.old) row };

    /// Pivots on a number other than 0: where it is below 0, the row is turned first. A refused step leaves
    /// the content as it was.
    fn step(&mut self, row: u32, column: u32) -> Result<(), PivotError>
        requires row { row < height_of (content self.old) }
        requires column { column < columns_of (content self.old) }
        requires number { number_at (content self.old) row column ≢ pos 0 }
        ensures stepped { IfOk result (λ _. content self.new ≡ stepped (content self.old) row column) }
        ensures fits { IfOk result (λ _. step_growth (content self.old) row column ≡ None) }
        ensures grew { IfErr result (IsStepError (content self.old) row column) }
        ensures unchanged { OnErr result (content self.new ≡ content self.old) }
    {
        if self.number(row, column) > 0 {
            return self.pivot(row, column);
        }
        self.turn(row);
        match self.pivot(row, column) {
            Ok(()) => Ok(()),
            Err(error) => {
                self.turn(row);
                Err(error)
            }
        }
    }

    ghost is_table: { (store : Self) → IsTable (content store) };
}
