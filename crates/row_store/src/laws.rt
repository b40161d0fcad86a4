//! Laws of tables, each a function whose contract is the law.

ghost use Rattle.row_store.specs.Points.{KeepsPoints, KeepsSurplus};

/// A point meets the lines of a table after a pivot exactly where it meets those of the table before.
pub fn pivot_keeps_points()
    ensures { KeepsPoints }
{}

/// Where a point meets the lines, a pivot keeps the surplus of each row over its denominator: in the cost
/// row, what the point costs.
pub fn pivot_keeps_surplus()
    ensures { KeepsSurplus }
{}
