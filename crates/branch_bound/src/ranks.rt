//! In which order subproblems that wait are split.

/// The place of a subproblem among those that wait: by its rounded worth, and at a tie by its number.
#[derive(Clone, Copy, PartialEq, Eq, PartialOrd, Ord)]
pub(crate) struct Rank {
    /// The worth of its prices, rounded up, in cost units.
    pub(crate) worth: i128,
    /// Its number in the list of subproblems.
    pub(crate) number: usize,
}
