ghost use Rattle.std.specs.Prelude.{◌≤◌, ◌-◌, ◌^◌, ◌↔◌, IsTrue, All, unsigned_abs};
ghost use Rattle.frac_row.specs.Row.{IsSmall};

use crate::entry::Entry;
use crate::sizes::is_small_number;
use crate::sparse_row::SparseRow;

/// Whether all numbers and the denominator are small, so that nothing of two such rows is outgrown.
pub fn is_small(row: &SparseRow) -> bool
    ensures { IsTrue result ↔ IsSmall row.now }
{
    is_small_number(&row.den) && are_small(row.entries.as_slice())
}

fn are_small(entries: &[Entry]) -> bool
    ensures { IsTrue result ↔ All (λ entry. unsigned_abs entry.number ≤ 2 ^ 63 - 1) entries.now }
{
    entries.iter().all(|entry| is_small_number(&entry.number))
}
