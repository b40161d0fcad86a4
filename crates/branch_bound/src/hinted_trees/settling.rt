//! What a plan, a bound and a tree say together.
ghost use Rattle.std.specs.Prelude.{◌≡◌, Some};
ghost use Rattle.node_bounding.specs.Subproblems.{cost_of_plan};
ghost use Rattle.branch_bound.specs.hinted_trees.Parts.{settled, solved_by_plan, unplanned};

use dual_bound::{Solved, Tree};
use plan_judge::LegalPlan;

/// What a plan costs, where there is one.
pub(crate) fn cost_of(best: &Option<LegalPlan>) -> Option<i128>
    ensures { result ≡ cost_of_plan best.now }
{
    match best {
        Some(plan) => Some(plan.cost),
        None => None,
    }
}

/// The solution of a plan, if any, of the tree that comes with it, and of the tree's bound, if it has one: where they go
/// together. Takes no memory.
pub(crate) fn settled(best: Option<LegalPlan>, bound: Option<i128>, tree: Tree) -> Option<Solved>
    ensures { result ≡ settled best bound tree }
{
    match best {
        Some(plan) => planned(plan, bound?, tree),
        None => unplanned(bound, tree),
    }
}

/// With a plan: the bound is its cost where no leaf is open, and less where one is.
fn planned(plan: LegalPlan, bound: i128, tree: Tree) -> Option<Solved>
    ensures { result ≡ solved_by_plan plan bound tree }
{
    let together = if tree.has_open() {
        bound < plan.cost
    } else {
        bound == plan.cost
    };
    if together {
        Some(Solved::Planned {
            assignment: plan.assignment,
            cost: plan.cost,
            bound,
            tree,
        })
    } else {
        None
    }
}

/// Without one: there is a bound just where a leaf is open.
fn unplanned(bound: Option<i128>, tree: Tree) -> Option<Solved>
    ensures { result ≡ unplanned bound tree }
{
    let is_open = tree.has_open();
    match bound {
        Some(bound) => {
            if is_open {
                Some(Solved::Unsettled { bound, tree })
            } else {
                None
            }
        }
        None => {
            if is_open {
                None
            } else {
                Some(Solved::Infeasible { tree })
            }
        }
    }
}
