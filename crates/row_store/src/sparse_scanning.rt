ghost use Rattle.std.specs.Prelude.{◌≡◌, ◌+◌, ◌<◌, ◌≤◌, ◌^◌, ◌==◌, ◌&&◌, Some, None, length, unsigned_abs, pos, ◌<ℤ◌, if◌then◌else◌};
ghost use Rattle.sums.specs.Places.{first_below};
ghost use Rattle.frac_row.specs.Row.{number_of, width_of};
ghost use Rattle.frac_row.specs.Content.{AreEntries, number_in};
ghost use Rattle.row_store.specs.declared.choice.Candidate.{Candidate};
ghost use Rattle.row_store.specs.Table.{IsTable, columns_of, height_of};
ghost use Rattle.row_store.specs.Choice.{improves, is_negative, better, candidate_at, entering, leaving};
ghost use Rattle.row_store.specs.Scan.{first_where};

use crate::choice::{Candidate, better, row_of};
use frac_row::{Entry, SparseRow};

/// The least improving one of the first columns of a table.
pub fn first_entering(rows: &[SparseRow], columns: u32) -> Option<u32>
    requires table { IsTable rows.now }
    requires columns { columns ≤ columns_of rows.now }
    ensures { result ≡ entering rows.now columns }
{
    let phase = rows.len() - 2;
    first_improving(&rows[phase], &rows[phase + 1], columns)
}

/// The least improving one of the first columns, by the phase row and the cost row.
fn first_improving(phase: &SparseRow, cost: &SparseRow, columns: u32) -> Option<u32>
    requires phase { columns ≤ width_of phase.now }
    requires cost { width_of cost.now ≡ width_of phase.now }
    ensures { result ≡ first_below (λ column. if improves (number_of phase.now column) (number_of cost.now column) then Some column else None) columns }
{
    let bound = first_negative(phase.entries(), columns);
    let column = first_cheaper(phase, cost.entries(), bound);
    if column < columns { Some(column) } else { None }
}

/// The first column below a bound with a negative number, else the bound.
pub fn first_negative(entries: &[Entry], bound: u32) -> u32
    ensures { result ≡ first_where (λ entry. is_negative entry.number) bound entries.now }
{
    let mut left = entries;
    while let Some((entry, rest)) = left.split_first() {
        if entry.column >= bound {
            return bound;
        }
        if entry.number < 0 {
            return entry.column;
        }
        left = rest;
    }
    bound
}

/// The first column below a bound with a negative cost and 0 in the phase row, else the bound.
fn first_cheaper(phase: &SparseRow, costs: &[Entry], bound: u32) -> u32
    requires { bound ≤ width_of phase.now }
    ensures { result ≡ first_where (λ entry. is_negative entry.number && (unsigned_abs (number_of phase.now entry.column) == 0)) bound costs.now }
{
    let mut left = costs;
    while let Some((entry, rest)) = left.split_first() {
        if entry.column >= bound {
            return bound;
        }
        if entry.number < 0 && phase.number(entry.column) == 0 {
            return entry.column;
        }
        left = rest;
    }
    bound
}

/// Of the lines with a positive number in the column the one with the least ratio.
pub fn least_ratio(rows: &[SparseRow], basis: &[u32], column: u32, right_side: u32) -> Option<u32>
    requires table { IsTable rows.now }
    requires basis { length basis.now ≡ height_of rows.now }
    requires column { column < columns_of rows.now }
    requires right_side { right_side + 1 ≡ columns_of rows.now }
    ensures { result ≡ leaving rows.now basis.now column }
{
    let mut best = None;
    for row in 0..rows.len() - 2 {
        best = next_best(best, rows, basis, row as u32, column, right_side);
    }
    row_of(best)
}

/// The best line so far, or the next one where that goes first.
fn next_best(
    best: Option<Candidate>,
    rows: &[SparseRow],
    basis: &[u32],
    row: u32,
    column: u32,
    right_side: u32,
) -> Option<Candidate>
    requires best { (other : Candidate) → best ≡ Some other → pos 0 <ℤ other.entry }
    requires table { IsTable rows.now }
    requires basis { length basis.now ≡ height_of rows.now }
    requires row { row < height_of rows.now }
    requires column { column < columns_of rows.now }
    requires right_side { right_side + 1 ≡ columns_of rows.now }
    ensures { result ≡ better best (candidate_at rows.now basis.now column row) }
{
    let line = &rows[row as usize];
    let entry = line.number(column);
    if entry <= 0 {
        return best;
    }
    better(
        best,
        Candidate {
            row,
            basic: basis[row as usize],
            entry,
            right_side: line.number(right_side),
        },
    )
}
