use entries::Entries;
use frac_row::Line;

/// Lines with their costs: find numbers of at least 0, one for each real column, that meet all lines at
/// least cost.
#[derive(Drop)]
pub struct Rows {
    /// How many real columns there are.
    pub columns: u32,
    /// Each line has its real numbers and then its right side.
    pub lines: Entries<Line>,
    /// The cost of each real column.
    pub costs: Entries<i128>,
}
