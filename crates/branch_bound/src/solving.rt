//! The solver.
ghost use Rattle.std.specs.Prelude.{◌≡◌, IfOk};
ghost use Rattle.branch_bound.specs.Settled.{IsAllClosed};
ghost use Rattle.branch_bound.specs.Solved.{IsSolved};

use crate::branching::branch;
use crate::growing::grown;
use crate::search::Search;
use crate::settling::settle;
use dual_bound::{Solved, Tree};
use entries::NoMemory;
use fleet_model::{Kept, Tables};
use lp_rows::Program;
use node_bounding::removals::{below, remove};
use plan_judge::LegalPlan;
use presolve::trim;
use simplex_frac::end_check::EndFinder;
use std::alloc::Global;

/// Solves tables, with at most so many splits, and at most so many pivots for each subproblem, or with no budget of them
/// (Hane and others 1995: presolve, linear relaxations, branch and bound).
///
/// A subproblem is solved when it is made. The next to be split is the one of the least rounded worth, and at a tie the
/// one that was made first, so the bound never falls from split to split (best-first search: Lawler and Wood 1966).
///
/// `S` looks for an end of each subproblem's lines first, and is trusted in nothing: all that is promised holds of any `S`.
pub fn solve<S: EndFinder<Program>>(
    alloc: Global,
    tables: &Tables,
    nodes: u64,
    pivots: Option<u64>,
) -> Result<Solved, NoMemory>
    ensures { IfOk result (IsSolved tables.now nodes pivots) }
{
    let Found { best, tree } = searched::<S>(alloc, tables, nodes, pivots)?;
    Ok(settle(tables, best, tree))
}

/// The cheapest plan that a search found, and its tree.
#[derive(Drop)]
pub(crate) struct Found {
    pub(crate) best: Option<LegalPlan>,
    pub(crate) tree: Tree,
}

// Searches all pairs.
fn searched<S: EndFinder<Program>>(
    alloc: Global,
    tables: &Tables,
    nodes: u64,
    pivots: Option<u64>,
) -> Result<Found, NoMemory>
    ensures { IfOk result (λ f. IsAllClosed tables.now nodes pivots f.best f.tree) }
{
    let removals = trim(alloc, tables)?;
    let mut kept = Kept::all(tables);
    remove(&mut kept, removals.as_slice());
    let search = branch::<S>(alloc, tables, nodes, pivots, &kept)?;
    let Search { best, made, .. } = search;
    let rest = grown(alloc, made, &best)?;
    let tree = below(alloc, removals, rest)?;
    Ok(Found { best, tree })
}
