ghost use Rattle.std.specs.Prelude.{◌↔◌, IsTrue};
ghost use Rattle.row_store.specs.Problem.{IsProblem};
ghost use Rattle.simplex_frac.specs.Duality.{AreRightSidesAtLeast0};

use row_store::Rows;
use row_store::first::entry;

/// Whether no right side of the lines is below 0, so that `finish` can run from them.
pub fn are_right_sides_at_least_0(rows: &Rows) -> bool
    requires { IsProblem rows.now }
    ensures { IsTrue result ↔ AreRightSidesAtLeast0 rows.now }
{
    for line in 0..rows.lines.len() as u32 {
        if entry(rows, line, rows.columns) < 0 {
            return false;
        }
    }
    true
}
