//! Splits that should not have been made, since their rounded worth is above a cost.
ghost use Rattle.std.specs.Prelude.{◌≡◌, ◌<ℤ◌, ◌≤ℤ◌, None, MatchBool, MatchOption};
ghost use Rattle.fleet_model.specs.Kept.{all_pairs};
ghost use Rattle.dual_bound.specs.OfTables.{IsOfTables};
ghost use Rattle.cert_check.specs.Nodes.{node_at};
ghost use Rattle.cert_check.specs.Rules.{IsSoundBut};
ghost use Rattle.cert_check.specs.Splits.{AreSoundButPriced, IsFirstSplitAbove, IsNoneAbove, IsSplitAbove, NoSplitIsAbove};
ghost use Rattle.cert_check.specs.Visitors.{IsSought};
ghost use Rattle.cert_check.specs.declared.rules.Rule.TheVariants as rule;

use crate::reached::Reached;
use crate::walking::{Visit, Walker, walk};
use dual_bound::{Tree, rounded_worth};
use fleet_model::{Kept, Sizes, Tables};

/// The number of the first split of a tree, as `check` counts its nodes, whose rounded worth is above a cost, in cost
/// units. Where the cost is that of the plan, or of any legal assignment, such a split was not needed: nothing in its
/// subproblem is cheaper. Takes no memory.
pub fn split_above(tables: &Tables, tree: &Tree, cost: i128) -> Option<u64>
    requires known { IsOfTables tables.now tree.now }
    requires sound { AreSoundButPriced tables.now (all_pairs tables.now) tree.now }
    ensures { MatchOption result (NoSplitIsAbove tables.now cost tree.now) (IsFirstSplitAbove tables.now cost tree.now) }
{
    let mut walker = Walker::new(tables);
    if walk(tables, &SplitAbove { cost }, &mut walker, tree) {
        Some(walker.reached.number)
    } else {
        None
    }
}

/// Asks of each node whether it is a split above a cost.
#[derive(Drop)]
struct SplitAbove {
    cost: i128,
}

impl Visit for SplitAbove {
    ghost may = { λ it t. IsSoundBut t None rule.Priced };

    ghost finds = { λ it t. IsSought t it.cost };

    #[inline(never)]
    fn enter(&self, tables: &Tables, kept: &Kept, node: &Tree, reached: &mut Reached) -> bool {
        if is_above(tables, kept, &self.cost, node) {
            return true;
        }
        reached.pass(&None);
        false
    }
}

// Whether a node is a split whose rounded worth is above a cost.
fn is_above(tables: &Tables, kept: &Kept, cost: &i128, node: &Tree) -> bool
    requires { IsSoundBut tables.now None rule.Priced (node_at kept.now node.now) }
    ensures { MatchBool result (IsSplitAbove tables.now cost.now (node_at kept.now node.now)) (IsNoneAbove tables.now cost.now (node_at kept.now node.now)) }
{
    match node {
        Tree::Split { prices, .. } => {
            is_less(cost, &rounded_worth(tables, Sizes::Own, kept, prices))
        }
        _ => false,
    }
}

// Whether a number is less than another.
fn is_less(number: &i128, other: &i128) -> bool
    ensures { MatchBool result (number.now <ℤ other.now) (other.now ≤ℤ number.now) }
{
    *number < *other
}
