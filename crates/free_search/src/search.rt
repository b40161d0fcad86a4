use basis_factors::fixed_numbers::Fixed;
use dual_pivots::{Basis, Saved, Workspace};
use entries::NoMemory;
use search_tree::{Gains, Problem, Slots, Subproblems};
use std::alloc::Global;

/// What a search has found so far, and what it reckons with.
#[derive(Drop)]
pub struct Search {
    pub basis: Basis,
    pub space: Workspace,
    /// The basis of the subproblem that is being split.
    pub saved: Saved,
    pub subproblems: Subproblems,
    pub slots: Slots,
    pub gains: Gains,
    /// What the cheapest plan costs that was found, and its pairs by their columns, leg by leg.
    pub best: Option<i128>,
    pub plan: Vec<u32>,
    /// How many subproblems were split.
    pub splits: u64,
    /// How many pivots a run may make.
    pub pivots: u64,
    /// How much work was done in all.
    pub work: u64,
    /// A basis with its weights, before it is factored.
    pub head: Vec<u32>,
    pub weights: Vec<Fixed>,
    /// Dual values in parts, and as whole numbers over a scale.
    pub parts: Vec<Fixed>,
    pub duals: Vec<i128>,
    /// The pairs of a plan, leg by leg.
    pub pairs: Vec<u32>,
}

impl Search {
    /// One that has found nothing, with at most so many pivots a run.
    pub fn new(alloc: Global, problem: &Problem, pivots: u64) -> Search {
        Search {
            basis: Basis::new(alloc),
            space: Workspace::new(alloc),
            saved: Saved::new(alloc),
            subproblems: Subproblems::new(alloc),
            slots: Slots::new(alloc, problem.lines.count()),
            gains: Gains::new(alloc),
            best: None,
            plan: Vec::new(alloc),
            splits: 0,
            pivots,
            work: 0,
            head: Vec::new(alloc),
            weights: Vec::new(alloc),
            parts: Vec::new(alloc),
            duals: Vec::new(alloc),
            pairs: Vec::new(alloc),
        }
    }

    /// Makes room for what is searched.
    pub fn begin(&mut self, problem: &Problem) -> Result<(), NoMemory> {
        let lines = &problem.lines;
        self.basis.begin(lines)?;
        self.space.begin(lines.count(), lines.column_count())?;
        self.gains.begin(problem.pair_count())
    }
}
