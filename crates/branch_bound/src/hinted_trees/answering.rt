//! Whether the leaves of a tree are answered by the plan that comes with it: no sole leaf holds a cheaper one, and no open
//! leaf reaches its cost.
ghost use Rattle.std.specs.Prelude.{◌≡◌, MatchBool};
ghost use Rattle.fleet_model.specs.Kept.{all_pairs};
ghost use Rattle.dual_bound.specs.OfTables.{IsOfTables};
ghost use Rattle.cert_check.specs.Nodes.{node_at};
ghost use Rattle.cert_check.specs.Rules.{IsSound};
ghost use Rattle.cert_check.specs.Verdicts.{AreSound};
ghost use Rattle.branch_bound.specs.hinted_trees.Parts.{AreAnswered, FallsBelow, IsCovered, IsNodeAnswered, IsToldAnswered};

use cert_check::{Reached, Visit, Walker, own_bound, walk};
use dual_bound::Tree;
use fleet_model::{Kept, Sizes, Tables};

/// Whether all leaves of a tree that holds are answered by the cost of the plan that comes with it, if any. Takes no memory.
pub(crate) fn are_answered(tables: &Tables, cost: Option<i128>, tree: &Tree) -> bool
    requires known { IsOfTables tables.now tree.now }
    requires sound { AreSound tables.now cost (all_pairs tables.now) tree.now }
    ensures { MatchBool result (AreAnswered tables.now cost (all_pairs tables.now) tree.now) (¬ (AreAnswered tables.now cost (all_pairs tables.now) tree.now)) }
{
    let mut walker = Walker::new(tables);
    !walk(tables, &Unanswered { cost }, &mut walker, tree)
}

/// Asks of each node whether it is a leaf that isn't answered.
#[derive(Drop)]
struct Unanswered {
    /// What the plan costs, if there is one.
    cost: Option<i128>,
}

impl Visit for Unanswered {
    ghost may = { λ it t. IsSound t it.cost };

    ghost finds = { λ it t. IsToldAnswered t it.cost };

    #[inline(never)]
    fn enter(&self, tables: &Tables, kept: &Kept, node: &Tree, _reached: &mut Reached) -> bool {
        !is_answered(tables, &self.cost, kept, node)
    }
}

// Whether a node is no sole and no open leaf, or one that is answered.
fn is_answered(tables: &Tables, cost: &Option<i128>, kept: &Kept, node: &Tree) -> bool
    requires { IsSound tables.now cost.now (node_at kept.now node.now) }
    ensures { MatchBool result (IsNodeAnswered tables.now cost.now (node_at kept.now node.now)) (¬ (IsNodeAnswered tables.now cost.now (node_at kept.now node.now))) }
{
    match node {
        Tree::Sole => is_covered(cost, &own_bound(tables, Sizes::Own, kept, node)),
        Tree::Open(..) => falls_below(cost, &own_bound(tables, Sizes::Own, kept, node)),
        Tree::Bare { .. }
        | Tree::Refuted(_)
        | Tree::Priced(_)
        | Tree::Trim { .. }
        | Tree::Split { .. } => true,
    }
}

// Whether there is a cost that is no more than a bound, where there is a bound.
fn is_covered(cost: &Option<i128>, bound: &Option<i128>) -> bool
    ensures { MatchBool result (IsCovered cost.now bound.now) (¬ (IsCovered cost.now bound.now)) }
{
    match bound {
        None => true,
        Some(bound) => match cost {
            None => false,
            Some(cost) => *cost <= *bound,
        },
    }
}

// Whether there is a bound that is below a cost, where there is a cost.
fn falls_below(cost: &Option<i128>, bound: &Option<i128>) -> bool
    ensures { MatchBool result (FallsBelow cost.now bound.now) (¬ (FallsBelow cost.now bound.now)) }
{
    match cost {
        None => true,
        Some(cost) => match bound {
            None => false,
            Some(bound) => *bound < *cost,
        },
    }
}
