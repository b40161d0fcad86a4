use crate::dual_lift::mixture::Mixture;

/// How the dual values of the lines are read off the last table of a run: by the row, or rows, that no real column
/// improves.
#[derive(Clone, Copy)]
pub enum Reading {
    /// At a cheapest point of the proved run: the cost row, with so many of the phase row that no real column is
    /// negative.
    BothRows(Mixture),
    /// Where no point meets the lines: the phase row.
    PhaseRow,
}
