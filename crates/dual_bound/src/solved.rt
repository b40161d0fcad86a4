//! A plan with a bound, that there is none, or a bound alone.
ghost use Rattle.std.specs.Prelude.{◌≡◌};
ghost use Rattle.dual_bound.specs.Solved.{tree_of};

use crate::trees::Tree;
use fleet_model::Assignment;

/// What the solver answers on tables, with the tree of subproblems that proves it.
#[derive(Drop)]
pub enum Solved {
    /// A legal plan with its exact cost, and a bound that no legal assignment undercuts, in cost units.
    Planned {
        assignment: Assignment,
        cost: i128,
        bound: i128,
        tree: Tree,
    },
    /// No assignment is legal.
    Infeasible {
        tree: Tree,
    },
    /// No plan was found, and a subproblem is open: the bound stands for whatever may be legal.
    Unsettled {
        bound: i128,
        tree: Tree,
    },
}

impl Solved {
    /// The tree of subproblems that proves the answer.
    pub fn tree(&self) -> &Tree
        ensures { result.now ≡ tree_of self.now }
    {
        match self {
            Solved::Planned { tree, .. }
            | Solved::Infeasible { tree }
            | Solved::Unsettled { tree, .. } => tree,
        }
    }
}
