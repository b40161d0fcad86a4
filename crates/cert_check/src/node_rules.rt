//! The rules at a node of a tree.
ghost use Rattle.std.specs.Prelude.{◌≡◌, Some, None, IfSome, IsSomeAnd, MatchBool, MatchOption};
ghost use Rattle.fleet_model.specs.Kept.{kept_by, narrowed};
ghost use Rattle.fleet_model.specs.Schedule.{IsPair, leg_on};
ghost use Rattle.dual_bound.specs.OfTables.{ArePricesOf, IsOfTables};
ghost use Rattle.dual_bound.specs.Prices.{ArePrices, AreWithin, NeverRise, RiseByRent};
ghost use Rattle.dual_bound.specs.Fractions.{AreMixedParts, IsFraction, IsMixedAt};
ghost use Rattle.cert_check.specs.Nodes.{mixed_at, mixed_of, node_at, prices_at};
ghost use Rattle.cert_check.specs.Rules.{EndsAtOnce, HasFraction, HasItsPairs, HasParts, HasScale, IsFirstBrokenRule, IsPricedAt, IsRefutedAt, IsSound, Keeps, IsSoleLegal, KeepsBefore, OneEnds, ReachesCost, rule_number};

use crate::fraction_rules::{is_fraction, is_whole_pair};
use crate::leaves::{have_all_pairs, is_bare, is_sole, is_sole_legal};
use crate::mixed_rules::is_mixed;
use crate::price_rules::{are_within, is_no_more, is_scale, never_rise, rise_by_rent};
use crate::rules::{RULES, Rule};
use dual_bound::worth::worth;
use dual_bound::{Cause, Mixed, Prices, Tree, WeightFinder, rounded_worth};
use fleet_model::{Kept, Sizes, Step, Tables};

/// The first rule that a node breaks. Takes no memory.
///
/// It stands apart from the walk, so that a level of the tree takes little of the stack.
#[inline(never)]
pub(crate) fn first_fault(
    tables: &Tables,
    kept: &Kept,
    cost: &Option<i128>,
    node: &Tree,
) -> Option<Rule>
    requires { IsOfTables tables.now node.now }
    ensures { MatchOption result (IsSound tables.now cost.now (node_at kept.now node.now)) (IsFirstBrokenRule tables.now cost.now (node_at kept.now node.now)) }
{
    for rule in RULES {
        if !keeps(tables, kept, cost, node, rule) {
            return Some(rule);
        }
    }
    None
}

// Whether a node keeps a rule, where it keeps those before.
fn keeps(tables: &Tables, kept: &Kept, cost: &Option<i128>, node: &Tree, rule: Rule) -> bool
    requires known { IsOfTables tables.now node.now }
    requires before { KeepsBefore tables.now cost.now (node_at kept.now node.now) (rule_number rule) }
    ensures { MatchBool result (Keeps tables.now cost.now (node_at kept.now node.now) rule) (¬ (Keeps tables.now cost.now (node_at kept.now node.now) rule)) }
{
    match rule {
        Rule::Scale => has_scale(tables, node),
        Rule::Limits => has_limits(tables, node),
        Rule::Fall => has_falls(tables, node),
        Rule::Rent => has_rents(tables, node),
        Rule::Pairs => has_its_pairs(tables, kept, node),
        Rule::Refuted => is_refuted(tables, kept, node),
        Rule::Priced => is_priced(tables, kept, cost, node),
        Rule::Parts => has_parts(tables, kept, node),
        Rule::Mixed => has_mixed(tables, kept, node),
        Rule::Fraction => has_fraction(tables, kept, node),
    }
}

// The prices of a node that has them.
fn prices_of<'a>(tables: &Tables, node: &'a Tree) -> Option<&'a Prices>
    requires { IsOfTables tables.now node.now }
    ensures there { MatchOption result (prices_at node.now ≡ None) (λ prices. prices_at node.now ≡ Some prices.now) }
    ensures known { IfSome result (λ prices. ArePricesOf tables.now prices.now) }
{
    match node {
        Tree::Refuted(prices)
        | Tree::Priced(prices)
        | Tree::Open(prices, _)
        | Tree::Split { prices, .. } => Some(prices),
        Tree::Bare { .. } | Tree::Sole | Tree::Trim { .. } => None,
    }
}

// The fractional assignment of a node that has one.
fn mixed_in(node: &Tree) -> Option<&Mixed>
    ensures { MatchOption result (mixed_at node.now ≡ None) (λ mixed. mixed_at node.now ≡ Some mixed.now) }
{
    match node {
        Tree::Open(_, Cause::Nodes(mixed)) => Some(mixed),
        Tree::Split { mixed, .. } => Some(mixed),
        _ => None,
    }
}

// Whether the scale of a node's prices is within its limits.
fn has_scale(tables: &Tables, node: &Tree) -> bool
    requires { IsOfTables tables.now node.now }
    ensures { MatchBool result (IfSome (prices_at node.now) HasScale) (¬ (IfSome (prices_at node.now) HasScale)) }
{
    match prices_of(tables, node) {
        Some(prices) => is_scale(&prices.scale),
        None => true,
    }
}

// Whether a node's rents, prices and charges are within their limits.
fn has_limits(tables: &Tables, node: &Tree) -> bool
    requires { IsOfTables tables.now node.now }
    ensures { MatchBool result (IfSome (prices_at node.now) (AreWithin tables.now)) (¬ (IfSome (prices_at node.now) (AreWithin tables.now))) }
{
    match prices_of(tables, node) {
        Some(prices) => are_within(tables, prices),
        None => true,
    }
}

// Whether none of a node's prices rises through the period.
fn has_falls(tables: &Tables, node: &Tree) -> bool
    requires known { IsOfTables tables.now node.now }
    requires within { IfSome (prices_at node.now) (AreWithin tables.now) }
    ensures { MatchBool result (IfSome (prices_at node.now) (NeverRise tables.now)) (¬ (IfSome (prices_at node.now) (NeverRise tables.now))) }
{
    match prices_of(tables, node) {
        Some(prices) => never_rise(tables, prices),
        None => true,
    }
}

// Whether none of a node's prices rises by more than the rent over the end of the period.
fn has_rents(tables: &Tables, node: &Tree) -> bool
    requires known { IsOfTables tables.now node.now }
    requires within { IfSome (prices_at node.now) (AreWithin tables.now) }
    ensures { MatchBool result (IfSome (prices_at node.now) (RiseByRent tables.now)) (¬ (IfSome (prices_at node.now) (RiseByRent tables.now))) }
{
    match prices_of(tables, node) {
        Some(prices) => rise_by_rent(tables, prices),
        None => true,
    }
}

// Whether a node's subproblem keeps the pairs that such a node asks for.
fn has_its_pairs(tables: &Tables, kept: &Kept, node: &Tree) -> bool
    requires { IsOfTables tables.now node.now }
    ensures { MatchBool result (HasItsPairs tables.now (kept_by kept.now) node.now) (¬ (HasItsPairs tables.now (kept_by kept.now) node.now)) }
{
    match node {
        Tree::Bare { leg } => is_bare(tables, kept, *leg),
        Tree::Sole => is_sole(tables, kept),
        Tree::Trim { .. } => true,
        Tree::Refuted(_) | Tree::Priced(_) | Tree::Open(..) | Tree::Split { .. } => {
            have_all_pairs(tables, kept)
        }
    }
}

// Whether a refuted leaf is refuted.
fn is_refuted(tables: &Tables, kept: &Kept, node: &Tree) -> bool
    requires { IfSome (prices_at node.now) (ArePrices tables.now) }
    ensures { MatchBool result (IsRefutedAt tables.now (kept_by kept.now) node.now) (¬ (IsRefutedAt tables.now (kept_by kept.now) node.now)) }
{
    match node {
        Tree::Refuted(prices) => worth(tables, kept, prices, 0) > 0,
        _ => true,
    }
}

// Whether a priced leaf comes with a plan that costs no more than its rounded worth.
fn is_priced(tables: &Tables, kept: &Kept, cost: &Option<i128>, node: &Tree) -> bool
    requires { IfSome (prices_at node.now) (ArePrices tables.now) }
    ensures { MatchBool result (IsPricedAt tables.now cost.now (kept_by kept.now) node.now) (¬ (IsPricedAt tables.now cost.now (kept_by kept.now) node.now)) }
{
    match node {
        Tree::Priced(prices) => reaches(tables, kept, prices, cost),
        _ => true,
    }
}

// Whether there is a cost, and the rounded worth of prices reaches it.
fn reaches(tables: &Tables, kept: &Kept, prices: &Prices, cost: &Option<i128>) -> bool
    requires { ArePrices tables.now prices.now }
    ensures { MatchBool result (IsSomeAnd cost.now (ReachesCost tables.now (kept_by kept.now) prices.now)) (¬ (IsSomeAnd cost.now (ReachesCost tables.now (kept_by kept.now) prices.now))) }
{
    match cost {
        Some(cost) => reaches_cost(tables, kept, prices, cost),
        None => false,
    }
}

// Whether the rounded worth of prices reaches a cost.
fn reaches_cost(tables: &Tables, kept: &Kept, prices: &Prices, cost: &i128) -> bool
    requires { ArePrices tables.now prices.now }
    ensures { MatchBool result (ReachesCost tables.now (kept_by kept.now) prices.now cost.now) (¬ (ReachesCost tables.now (kept_by kept.now) prices.now cost.now)) }
{
    is_no_more(cost, &rounded_worth(tables, Sizes::Own, kept, prices))
}

// Whether a trim and a split name a kept pair, and have the children that they ask for.
fn has_parts(tables: &Tables, kept: &Kept, node: &Tree) -> bool
    requires { IsOfTables tables.now node.now }
    ensures { MatchBool result (HasParts tables.now (kept_by kept.now) node.now) (¬ (HasParts tables.now (kept_by kept.now) node.now)) }
{
    match node {
        Tree::Trim {
            leg,
            choice,
            yes,
            no,
        } => kept.kept(*leg, *choice) && one_ends(tables, kept, *leg, *choice, yes, no),
        Tree::Split { leg, choice, .. } => {
            kept.kept(*leg, *choice) && kept.count_on(tables, *leg) != 1
        }
        _ => true,
    }
}

// Whether one of two children of a trim ends at once.
fn one_ends(
    tables: &Tables,
    kept: &Kept,
    leg: u32,
    choice: u32,
    with_pair: &Tree,
    without: &Tree,
) -> bool
    requires { IsPair tables.now (leg_on leg choice) }
    ensures { MatchBool result (OneEnds tables.now (kept_by kept.now) leg choice with_pair.now without.now) (¬ (OneEnds tables.now (kept_by kept.now) leg choice with_pair.now without.now)) }
{
    ends_at_once(
        tables,
        kept,
        Step {
            leg,
            choice,
            yes: true,
        },
        with_pair,
    ) || ends_at_once(
        tables,
        kept,
        Step {
            leg,
            choice,
            yes: false,
        },
        without,
    )
}

// Whether a child of a trim ends at once, in its part of the subproblem.
fn ends_at_once(tables: &Tables, kept: &Kept, step: Step, child: &Tree) -> bool
    requires { IsPair tables.now (leg_on step.leg step.choice) }
    ensures { MatchBool result (EndsAtOnce tables.now (narrowed (kept_by kept.now) step) child.now) (¬ (EndsAtOnce tables.now (narrowed (kept_by kept.now) step) child.now)) }
{
    match child {
        Tree::Bare { .. } | Tree::Refuted(_) | Tree::Priced(_) => true,
        Tree::Sole => !is_sole_legal_in(tables, kept, step),
        Tree::Open(..) | Tree::Trim { .. } | Tree::Split { .. } => false,
    }
}

// Whether in a part of a subproblem each leg keeps one choice, and that assignment is legal.
//
// It has the part on the stack, and so is kept out of the walk's own frames.
#[inline(never)]
fn is_sole_legal_in(tables: &Tables, kept: &Kept, step: Step) -> bool
    requires { IsPair tables.now (leg_on step.leg step.choice) }
    ensures { MatchBool result (IsSoleLegal tables.now (narrowed (kept_by kept.now) step)) (¬ (IsSoleLegal tables.now (narrowed (kept_by kept.now) step))) }
{
    let mut part = *kept;
    part.narrow(step);
    is_sole_legal(tables, &part)
}

// Whether a node's fractional assignment is one of its subproblem.
fn has_mixed(tables: &Tables, kept: &Kept, node: &Tree) -> bool
    ensures { MatchBool result (IfSome (mixed_at node.now) (IsMixedAt tables.now (kept_by kept.now))) (¬ (IfSome (mixed_at node.now) (IsMixedAt tables.now (kept_by kept.now)))) }
{
    match mixed_in(node) {
        Some(mixed) => is_mixed(tables, kept, mixed),
        None => true,
    }
}

// Whether a node's fractional assignment is a best one and not whole, and flies a split's pair in part.
fn has_fraction(tables: &Tables, kept: &Kept, node: &Tree) -> bool
    requires proper { IfSome (prices_at node.now) (ArePrices tables.now) }
    requires parts { IfSome (mixed_at node.now) (AreMixedParts tables.now) }
    ensures { MatchBool result (HasFraction tables.now (kept_by kept.now) node.now) (¬ (HasFraction tables.now (kept_by kept.now) node.now)) }
{
    match node {
        Tree::Open(prices, cause) => open_fraction(tables, kept, prices, cause),
        Tree::Split {
            leg,
            choice,
            prices,
            mixed,
            ..
        } => {
            is_fraction(tables, kept, prices, mixed)
                && !is_whole_pair(&WeightFinder::new(mixed), *leg, *choice)
        }
        _ => true,
    }
}

// Whether the fractional assignment of an open leaf's cause, where it has one, is a best one and not whole.
fn open_fraction(tables: &Tables, kept: &Kept, prices: &Prices, cause: &Cause) -> bool
    requires proper { ArePrices tables.now prices.now }
    requires parts { IfSome (mixed_of cause.now) (AreMixedParts tables.now) }
    ensures { MatchBool result (IfSome (mixed_of cause.now) (IsFraction tables.now (kept_by kept.now) prices.now)) (¬ (IfSome (mixed_of cause.now) (IsFraction tables.now (kept_by kept.now) prices.now))) }
{
    match cause {
        Cause::Nodes(mixed) => is_fraction(tables, kept, prices, mixed),
        Cause::Pivots { .. } | Cause::Grew { .. } | Cause::Lift { .. } => true,
    }
}
