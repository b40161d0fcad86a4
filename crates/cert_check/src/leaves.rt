//! Leaves of a tree: what they keep and the bounds that they give.
ghost use Rattle.std.specs.Prelude.{◌≡◌, ◌<◌, None, MatchBool};
ghost use Rattle.fleet_model.specs.Kept.{IsBare, IsSole, kept_by};
ghost use Rattle.fleet_model.specs.Schedule.{legs_in};
ghost use Rattle.fleet_model.specs.Sizes.{AreSizes, HoldsBy};
ghost use Rattle.dual_bound.specs.Bound.{IsSoleBound};
ghost use Rattle.cert_check.specs.Nodes.{node_at};
ghost use Rattle.cert_check.specs.Rules.{HaveAllPairs, IsSoleLegal, IsSoundBut};
ghost use Rattle.cert_check.specs.Walking.{IsOwnBound};
ghost use Rattle.cert_check.specs.declared.rules.Rule.TheVariants as rule;

use dual_bound::{Tree, rounded_worth};
use fleet_model::{Kept, Sizes, Tables};
use plan_judge::legal_cost;

/// Whether a leg keeps no choice. Takes no memory.
pub(crate) fn is_bare(tables: &Tables, kept: &Kept, leg: u32) -> bool
    requires { leg < legs_in tables.now }
    ensures { MatchBool result (IsBare tables.now (kept_by kept.now) leg) (¬ (IsBare tables.now (kept_by kept.now) leg)) }
{
    kept.count_on(tables, leg) == 0
}

/// Whether each leg keeps a fleet. Takes no memory.
pub(crate) fn have_all_pairs(tables: &Tables, kept: &Kept) -> bool
    ensures { MatchBool result (HaveAllPairs tables.now (kept_by kept.now)) (¬ (HaveAllPairs tables.now (kept_by kept.now))) }
{
    kept.bare_leg(tables).is_none()
}

/// Whether each leg keeps one choice. Takes no memory.
pub(crate) fn is_sole(tables: &Tables, kept: &Kept) -> bool
    ensures { MatchBool result (IsSole tables.now (kept_by kept.now)) (¬ (IsSole tables.now (kept_by kept.now))) }
{
    for leg in 0..tables.leg_count() {
        if kept.count_on(tables, leg) != 1 {
            return false;
        }
    }
    true
}

/// What the one assignment that is left costs where fleets have so many aircraft, if it is legal then. Takes no memory.
///
/// It has an assignment on the stack, and so is kept out of the walk's own frames.
#[inline(never)]
fn sole_cost(tables: &Tables, sizes: Sizes, kept: &Kept) -> Option<i128>
    requires sizes { AreSizes tables.now sizes }
    requires sole { IsSole tables.now (kept_by kept.now) }
    ensures { HoldsBy tables.now sizes (λ u. IsSoleBound u (kept_by kept.now) result) }
{
    match kept.sole(tables) {
        Some(plan) => legal_cost(tables, sizes, &plan),
        None => None,
    }
}

/// Whether each leg keeps one choice, and that assignment is legal. Takes no memory.
///
/// It has an assignment on the stack, and so is kept out of the walk's own frames.
#[inline(never)]
pub(crate) fn is_sole_legal(tables: &Tables, kept: &Kept) -> bool
    ensures { MatchBool result (IsSoleLegal tables.now (kept_by kept.now)) (¬ (IsSoleLegal tables.now (kept_by kept.now))) }
{
    match kept.sole(tables) {
        Some(plan) => legal_cost(tables, Sizes::Own, &plan).is_some(),
        None => false,
    }
}

/// The bound that a node which keeps all rules but the one on priced leaves has without its children, where fleets have so
/// many aircraft, in cost units: that of a leaf, and none of a trim or a split. Takes no memory.
pub fn own_bound(tables: &Tables, sizes: Sizes, kept: &Kept, node: &Tree) -> Option<i128>
    requires sizes { AreSizes tables.now sizes }
    requires sound { IsSoundBut tables.now None rule.Priced (node_at kept.now node.now) }
    ensures { HoldsBy tables.now sizes (λ u. IsOwnBound u (kept_by kept.now) node.now result) }
{
    match node {
        Tree::Bare { .. } | Tree::Refuted(_) | Tree::Trim { .. } | Tree::Split { .. } => None,
        Tree::Sole => sole_cost(tables, sizes, kept),
        Tree::Priced(prices) => Some(rounded_worth(tables, sizes, kept, prices)),
        Tree::Open(prices, _) => Some(rounded_worth(tables, sizes, kept, prices)),
    }
}
