//! The assignment problem, by the Hungarian method (Kuhn 1955; shortest augmenting paths after Edmonds and Karp 1972).
ghost use Rattle.std.specs.Prelude.{◌≡◌, ◌≤◌, ◌<◌, ℕ, length, slice_index, IfOk};
ghost use Rattle.plan_rotations.specs.best_matching.Worths.{AreDuals, AreTight, AreWorths, IsOneToOne};

use crate::best_matching::draft::first_draft;
use crate::best_matching::phase::add_row;
use entries::{Entries, NoMemory};
use std::alloc::Global;

/// The greatest worth of a row at a column, so that no sum of two numbers leaves 64 bits.
pub const MAX_WORTH: u64 = 1 << 62;

/// A one-to-one map of rows to columns, with numbers of the rows and columns that show that none is worth more.
#[derive(Drop)]
pub struct Matching {
    /// The column of each row.
    pub columns: Entries<usize>,
    /// The dual number of each row.
    pub row_duals: Entries<u64>,
    /// The dual number of each column.
    pub column_duals: Entries<u64>,
}

/// A one-to-one map of rows to columns that is worth most in sum. `worths` has a list for each row, with what the row
/// is worth at each column. The dual numbers of a row and a column sum to at least the worth at their place, and to no
/// more where the map sends the one to the other.
///
/// It takes time with the third power of the rows at most, and about with the second where few rows compete.
pub fn best_matching(alloc: Global, worths: &[Entries<u64>]) -> Result<Matching, NoMemory>
    requires { AreWorths worths.now }
    ensures sizes { IfOk result (λ m. (length m.columns ≡ length worths.now) × (length m.row_duals ≡ length worths.now) × (length m.column_duals ≡ length worths.now)) }
    ensures one_to_one { IfOk result (λ m. IsOneToOne (slice_index m.columns) (length worths.now)) }
    ensures reach { IfOk result (λ m. AreDuals worths.now (slice_index m.row_duals) (slice_index m.column_duals)) }
    ensures meet { IfOk result (λ m. AreTight worths.now (slice_index m.row_duals) (slice_index m.column_duals) (slice_index m.columns) (length worths.now)) }
    ensures small_rows { IfOk result (λ m. (row : ℕ) → row < length worths.now → slice_index m.row_duals row ≤ MAX_WORTH) }
    ensures small_columns { IfOk result (λ m. (column : ℕ) → column < length worths.now → slice_index m.column_duals column ≤ MAX_WORTH) }
{
    let mut draft = first_draft(alloc, worths)?;
    for row in 0..worths.len() {
        add_row(alloc, worths, &mut draft, row)?;
    }
    Ok(Matching {
        columns: draft.columns,
        row_duals: draft.row_duals,
        column_duals: draft.column_duals,
    })
}
