//! The tree of a search, put together from the list of its subproblems, with each open leaf closed that the cost of the
//! plan closes.
ghost use Rattle.std.specs.Prelude.{◌≡◌, ◌<◌, ℕ, suc, length, IfOk, OnOk, Option};
ghost use Rattle.dual_bound.specs.declared.trees.Tree.{Tree};
ghost use Rattle.fleet_model.specs.Kept.{Domains};
ghost use Rattle.fleet_model.specs.declared.tables.Tables.{Tables};
ghost use Rattle.node_bounding.specs.Subproblems.{cost_of_plan};
ghost use Rattle.branch_bound.specs.Growing.{AreGathered, AreSingle, AreSplitsLinked, IsClosedTree, IsFolded, IsJoinedFrom, IsSplitState, leaf_by, tree_by};
ghost use Rattle.branch_bound.specs.History.{Chronicle};
ghost use Rattle.branch_bound.specs.Search.{at};

use crate::subproblems::Subproblem;
use dual_bound::{Cause, Prices, Tree};
use entries::NoMemory;
use node_bounding::{State, is_reached};
use plan_judge::LegalPlan;
use std::alloc::Global;
use std::mem;

/// The tree of the first subproblem, where this plan, if any, is the cheapest. The parts of a split stand behind it, so
/// from the last to the first each tree is put into the one that it is a part of.
pub(crate) fn grown(
    alloc: Global,
    made: Vec<Subproblem>,
    best: &Option<LegalPlan>,
) -> Result<Tree, NoMemory>
    requires { AreSplitsLinked made.items }
    ensures { IfOk result (λ tree. (t : Tables) (root : Domains) (pivots : Option ℕ) (count : ℕ) (c : Chronicle) → AreGathered t root pivots (cost_of_plan best.now) count c made.items → AreSingle made.items → IsClosedTree t root pivots (cost_of_plan best.now) count c tree) }
{
    let mut rest = made;
    while let Some(last) = rest.pop() {
        match last.origin {
            None => return Ok(tree_of(last.state, best)),
            Some(origin) => fold(alloc, &mut rest, origin.parent, last.state, best)?,
        }
    }
    unreachable!()
}

// Puts the tree of the last subproblem, which was taken, and that of the one before it into the one that they are parts
// of.
fn fold(
    alloc: Global,
    rest: &mut Vec<Subproblem>,
    parent: usize,
    without: State,
    best: &Option<LegalPlan>,
) -> Result<(), NoMemory>
    requires parent { suc parent < length rest.old.items }
    requires split { IsSplitState (at rest.old.items parent).state }
    ensures { OnOk result (IsFolded (tree_by (cost_of_plan best.now)) rest.old.items rest.new.items parent without) }
{
    match rest.pop() {
        Some(with_pair) => {
            let state = mem::replace(&mut rest[parent].state, State::Leaf(Tree::Sole));
            let first = tree_of(with_pair.state, best);
            rest[parent].state = joined(alloc, state, first, tree_of(without, best))?;
            Ok(())
        }
        None => unreachable!(),
    }
}

// A subproblem that was split, with the trees of its parts.
fn joined(alloc: Global, state: State, with_pair: Tree, without: Tree) -> Result<State, NoMemory>
    requires { IsSplitState state }
    ensures { IfOk result (IsJoinedFrom state with_pair without) }
{
    match state {
        State::Split(fraction) => Ok(State::Leaf(Tree::Split {
            leg: fraction.pair.leg,
            choice: fraction.pair.choice,
            prices: fraction.best.prices,
            mixed: fraction.best.mixed,
            yes: Box::new(alloc, with_pair)?,
            no: Box::new(alloc, without)?,
        })),
        State::Leaf(_) | State::Stopped(_) | State::Waiting(_) => unreachable!(),
    }
}

// The tree of a subproblem whose parts, if any, were put into it: one that stays open, or still waits, is open, unless the
// cost of the plan closes it.
fn tree_of(state: State, best: &Option<LegalPlan>) -> Tree
    ensures { result ≡ tree_by (cost_of_plan best.now) state }
{
    match state {
        State::Leaf(tree) => tree,
        State::Stopped(stopped) => leaf(stopped.prices, stopped.why, &stopped.worth, best),
        State::Waiting(fraction) | State::Split(fraction) => {
            let why = Cause::Nodes(fraction.best.mixed);
            leaf(fraction.best.prices, why, &fraction.worth, best)
        }
    }
}

// A leaf with prices of this rounded worth: it is open, unless the worth reaches the cost of the plan.
fn leaf(prices: Prices, why: Cause, worth: &i128, best: &Option<LegalPlan>) -> Tree
    ensures { result ≡ leaf_by (cost_of_plan best.now) worth.now prices why }
{
    if is_reached(worth, best) {
        Tree::Priced(prices)
    } else {
        Tree::Open(prices, why)
    }
}
