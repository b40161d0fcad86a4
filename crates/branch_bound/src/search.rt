use crate::ranks::Rank;
use crate::subproblems::Subproblem;
use plan_judge::LegalPlan;
use std::collections::BTreeSet;

/// Where a search stands.
#[derive(Drop)]
pub(crate) struct Search {
    /// How many splits are allowed.
    pub(crate) nodes: u64,
    /// How many pivots are allowed in each subproblem; none where there is no budget of them.
    pub(crate) pivots: Option<u64>,
    /// How many splits were made.
    pub(crate) splits: u64,
    /// The cheapest plan so far.
    pub(crate) best: Option<LegalPlan>,
    /// The subproblems, in the order in which they were made.
    pub(crate) made: Vec<Subproblem>,
    /// Those that wait to be split, the next one first.
    pub(crate) waiting: BTreeSet<Rank>,
}
