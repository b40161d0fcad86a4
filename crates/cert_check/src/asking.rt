//! What a tree proves of the tables with another number of aircraft of one fleet.
ghost use Rattle.std.specs.Prelude.{◌≡◌, ◌<◌, ◌<ℤ◌, ◌≤◌, None, pos, MatchBool};
ghost use Rattle.fleet_model.specs.declared.limits.TheConstants.{MAX_AIRCRAFT};
ghost use Rattle.fleet_model.specs.declared.tables.Tables.{Tables};
ghost use Rattle.fleet_model.specs.Kept.{all_pairs, kept_by};
ghost use Rattle.fleet_model.specs.OtherSizes.{IsOtherSize};
ghost use Rattle.fleet_model.specs.Schedule.{fleets_in};
ghost use Rattle.fleet_model.specs.Sizes.{AreSizes, HoldsBy};
ghost use Rattle.dual_bound.specs.OfTables.{IsOfTables};
ghost use Rattle.dual_bound.specs.Prices.{ArePrices};
ghost use Rattle.dual_bound.specs.Worth.{worth_of};
ghost use Rattle.cert_check.specs.Nodes.{node_at};
ghost use Rattle.cert_check.specs.OtherSizes.{IsAskedOfTree, IsProofOf, Stands, answer_of};
ghost use Rattle.cert_check.specs.Rules.{IsSoundBut};
ghost use Rattle.cert_check.specs.Splits.{AreSoundButPriced};
ghost use Rattle.cert_check.specs.Visitors.{IsSized, MayBeSized};
ghost use Rattle.cert_check.specs.declared.rules.Rule.TheVariants as rule;

use crate::leaves::own_bound;
use crate::reached::Reached;
use crate::walking::{Visit, Walker, walk};
use crate::what_if::WhatIf;
use dual_bound::{Prices, Tree, worth_by};
use fleet_model::{Kept, Sizes, Tables};

/// What a tree, judged on the tables, proves where one fleet has this number of aircraft. It looks at each leaf once, and
/// solves nothing: a leaf is bounded by the worth of its prices there, or by its one assignment. Takes no memory.
pub fn whatif(tables: &Tables, fleet: u32, count: u32, tree: &Tree) -> WhatIf
    requires fleet { fleet < fleets_in tables.now }
    requires count { count ≤ MAX_AIRCRAFT }
    requires known { IsOfTables tables.now tree.now }

    // On the tables themselves no rule is broken but the one on priced leaves, which asks for a plan.
    requires sound { AreSoundButPriced tables.now (all_pairs tables.now) tree.now }

    // The first refuted leaf that isn't refuted there, else the tree's bound there, on whichever tables have that number.
    ensures asked { (u : Tables) → IsOtherSize tables.now fleet count u → IsAskedOfTree u tree.now result }

    // With a bound each assignment that is legal there costs at least so much, with no plan none is legal.
    ensures proof { (u : Tables) → IsOtherSize tables.now fleet count u → IsProofOf u result }
{
    let sizes = Sizes::Other { fleet, count };
    let mut walker = Walker::new(tables);
    if walk(tables, &OtherSize { sizes }, &mut walker, tree) {
        return WhatIf::Fallen {
            node: walker.reached.number,
        };
    }
    answer(&walker.reached.bound)
}

/// What is answered where no node has fallen and a tree has this bound.
fn answer(bound: &Option<i128>) -> WhatIf
    ensures { result ≡ answer_of bound.now }
{
    match bound {
        Some(bound) => WhatIf::Bound(*bound),
        None => WhatIf::NoPlan,
    }
}

/// Asks of each node whether it stands where fleets have so many aircraft.
#[derive(Drop)]
struct OtherSize {
    sizes: Sizes,
}

impl Visit for OtherSize {
    ghost may = { λ it t. MayBeSized t it.sizes };

    ghost finds = { λ it t. IsSized t it.sizes };

    #[inline(never)]
    fn enter(&self, tables: &Tables, kept: &Kept, node: &Tree, reached: &mut Reached) -> bool {
        if has_fallen(tables, self.sizes, kept, node) {
            return true;
        }
        reached.pass(&own_bound(tables, self.sizes, kept, node));
        false
    }
}

// Whether a node that keeps all rules but the one on priced leaves has fallen: it is a refuted leaf, and not refuted.
fn has_fallen(tables: &Tables, sizes: Sizes, kept: &Kept, node: &Tree) -> bool
    requires sizes { AreSizes tables.now sizes }
    requires sound { IsSoundBut tables.now None rule.Priced (node_at kept.now node.now) }
    ensures { HoldsBy tables.now sizes (λ u. MatchBool result (¬ (Stands u (node_at kept.now node.now))) (Stands u (node_at kept.now node.now))) }
{
    match node {
        Tree::Refuted(prices) => !refutes(tables, sizes, kept, prices),
        _ => false,
    }
}

// Whether proper prices refute a subproblem.
fn refutes(tables: &Tables, sizes: Sizes, kept: &Kept, prices: &Prices) -> bool
    requires sizes { AreSizes tables.now sizes }
    requires proper { ArePrices tables.now prices.now }
    ensures { HoldsBy tables.now sizes (λ u. MatchBool result (pos 0 <ℤ worth_of u (kept_by kept.now) prices.now 0) (¬ (pos 0 <ℤ worth_of u (kept_by kept.now) prices.now 0))) }
{
    worth_by(tables, sizes, kept, prices, 0) > 0
}
