use crate::closing::Turn;
use crate::outcome::Outcome;
use crate::search::Search;
use basis_factors::fixed_numbers::NONE;
use entries::NoMemory;
use fleet_model::limits::{MAX_CHOICES, MAX_LEGS};
use fleet_model::{Kept, Step, Tables};
use presolve::{Trim, trim};
use search_tree::{Problem, Subproblem, TreeTexts, bare_texts, problem_of, tree_texts};
use std::alloc::Global;

// How many pivots a run may make where no number is given.
const MOST_PIVOTS: u64 = 100_000;

/// The texts of a tree with at most so many splits, where one is found by at most so many pivots for each subproblem. Leaves stay open
/// where all splits are spent, and then alone.
///
/// It is a hint, and trusted in nothing: it is safe and ends, and that is all that is proved of it. The same tables are answered alike
/// each time.
pub fn find(
    alloc: Global,
    tables: &Tables,
    nodes: u64,
    pivots: Option<u64>,
) -> Result<Option<TreeTexts>, NoMemory> {
    let removals = trim(alloc, tables)?;
    let mut kept = Kept::all(tables);
    remove(&mut kept, removals.as_slice());
    if let Some(leg) = kept.bare_leg(tables) {
        return bare_texts(alloc, tables, removals.as_slice(), leg);
    }
    match problem_of(alloc, tables, &kept)? {
        Some(problem) => {
            let pivots = pivots.unwrap_or(MOST_PIVOTS).min(MOST_PIVOTS);
            let mut search = Search::new(alloc, &problem, pivots);
            search.texts(alloc, tables, removals.as_slice(), &problem, nodes)
        }
        None => Ok(None),
    }
}

// Removes the pairs that presolve sets aside.
fn remove(kept: &mut Kept, removals: &[Trim]) {
    for removal in removals {
        if (removal.leg as usize) < MAX_LEGS && (removal.choice as usize) < MAX_CHOICES {
            kept.narrow(Step {
                leg: removal.leg,
                choice: removal.choice,
                yes: false,
            });
        }
    }
}

impl Search {
    // The texts of what a search of the whole finds, where all of it is shown.
    fn texts(
        &mut self,
        alloc: Global,
        tables: &Tables,
        removals: &[Trim],
        problem: &Problem,
        nodes: u64,
    ) -> Result<Option<TreeTexts>, NoMemory> {
        if !self.goes(alloc, tables, problem, nodes)? {
            return Ok(None);
        }
        let subproblems = &self.subproblems;
        match self.best {
            Some(_) => {
                let plan = self.plan.as_slice();
                tree_texts(alloc, tables, removals, problem, subproblems, Some(plan))
            }
            None => tree_texts(alloc, tables, removals, problem, subproblems, None),
        }
    }

    // Searches the whole, and answers whether all of it is shown.
    fn goes(
        &mut self,
        alloc: Global,
        tables: &Tables,
        problem: &Problem,
        nodes: u64,
    ) -> Result<bool, NoMemory> {
        self.begin(problem)?;
        let whole = Subproblem::part(NONE, NONE, false);
        let number = self.subproblems.push(whole)?;
        let outcome = self.solve(alloc, tables, problem, number, false)?;
        if matches!(outcome, Outcome::Lost) {
            return Ok(false);
        }
        // Each turn splits a subproblem or makes a leaf.
        for _turn in 0..nodes.saturating_mul(2).saturating_add(2) {
            match self.turn(alloc, tables, problem, nodes)? {
                Turn::Went => {}
                Turn::Done => return Ok(true),
                Turn::GaveUp => return Ok(false),
            }
        }
        Ok(false)
    }
}
