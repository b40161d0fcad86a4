//! A matching that is being made.
ghost use Rattle.std.specs.Prelude.{◌≡◌, ◌<◌, ◌≤◌, ℕ, length, slice_set, slice_index, slice_index_or, [], IfOk};
ghost use Rattle.sums.specs.Places.{list_below};
ghost use Rattle.plan_rotations.specs.best_matching.Worths.{AreWorths, worth_at};
ghost use Rattle.plan_rotations.specs.best_matching.Drafts.{AreColumnsExchanged, HasDuals, IsMatched, IsPairing, column_of};
ghost use Rattle.plan_rotations.specs.declared.best_matching.matching.TheConstants.{MAX_WORTH};

use entries::{Entries, NoMemory};
use std::alloc::Global;

/// A one-to-one map of rows to columns, both ways, and the dual numbers of rows and columns.
#[derive(Drop)]
pub struct Draft {
    pub columns: Entries<usize>,
    pub rows: Entries<usize>,
    pub row_duals: Entries<u64>,
    pub column_duals: Entries<u64>,
}

/// The map of each row to the column of its number, with no row matched. A row's dual is its greatest worth.
pub fn first_draft(alloc: Global, worths: &[Entries<u64>]) -> Result<Draft, NoMemory>
    requires { AreWorths worths.now }
    ensures pairing { IfOk result (IsPairing (length worths.now)) }
    ensures duals { IfOk result (HasDuals worths.now) }
    ensures matched { IfOk result (λ draft. IsMatched worths.now draft 0 (length worths.now)) }
{
    let size = worths.len();
    Ok(Draft {
        columns: numbers(alloc, size)?,
        rows: numbers(alloc, size)?,
        row_duals: greatest_worths(alloc, worths)?,
        column_duals: zeros(alloc, size)?,
    })
}

/// The numbers below a size, in order.
fn numbers(alloc: Global, size: usize) -> Result<Entries<usize>, NoMemory>
    ensures { IfOk result (λ numbers. numbers ≡ list_below (λ k. k) size) }
{
    let mut numbers = Vec::new(alloc);
    for number in 0..size {
        numbers.push(number)?;
    }
    Ok(Entries::from_vec(numbers))
}

/// As many zeros as a size says.
fn zeros(alloc: Global, size: usize) -> Result<Entries<u64>, NoMemory>
    ensures { IfOk result (λ zeros. zeros ≡ list_below (λ _. 0) size) }
{
    let mut zeros = Vec::new(alloc);
    for _ in 0..size {
        zeros.push(0)?;
    }
    Ok(Entries::from_vec(zeros))
}

/// The greatest worth of each row.
fn greatest_worths(alloc: Global, worths: &[Entries<u64>]) -> Result<Entries<u64>, NoMemory>
    requires { AreWorths worths.now }
    ensures size { IfOk result (λ greatest. length greatest ≡ length worths.now) }
    ensures reach { IfOk result (λ greatest. (row column : ℕ) → row < length worths.now → column < length worths.now → worth_at worths.now row column ≤ slice_index greatest row) }
    ensures small { IfOk result (λ greatest. (row : ℕ) → row < length worths.now → slice_index greatest row ≤ MAX_WORTH) }
{
    let mut greatest = Vec::new(alloc);
    for row in 0..worths.len() {
        greatest.push(greatest_worth(worths, row))?;
    }
    Ok(Entries::from_vec(greatest))
}

/// The greatest worth of a row.
fn greatest_worth(worths: &[Entries<u64>], row: usize) -> u64
    requires worths { AreWorths worths.now }
    requires row { row < length worths.now }
    ensures reach { (column : ℕ) → column < length worths.now → worth_at worths.now row column ≤ result }
    ensures small { result ≤ MAX_WORTH }
{
    let mut greatest = 0;
    for column in 0..worths.len() {
        let worth = worth_at(worths, row, column);
        if worth > greatest {
            greatest = worth;
        }
    }
    greatest
}

/// What a row is worth at a column.
#[inline]
pub fn worth_at(worths: &[Entries<u64>], row: usize, column: usize) -> u64
    requires worths { AreWorths worths.now }
    requires row { row < length worths.now }
    requires column { column < length worths.now }
    ensures value { result ≡ worth_at worths.now row column }
    ensures small { result ≤ MAX_WORTH }
{
    worths[row].as_slice()[column]
}

/// Two rows exchange their columns.
pub fn exchange(draft: &mut Draft, one: usize, other: usize)
    requires one { one < length draft.old.columns }
    requires other { other < length draft.old.columns }
    requires column { column_of draft.old one < length draft.old.rows }
    requires other_column { column_of draft.old other < length draft.old.rows }
    ensures { AreColumnsExchanged draft.old draft.new one other }
{
    let column = draft.columns.as_slice()[one];
    let other_column = draft.columns.as_slice()[other];
    draft.columns.set(one, other_column);
    draft.columns.set(other, column);
    draft.rows.set(other_column, one);
    draft.rows.set(column, other);
}
