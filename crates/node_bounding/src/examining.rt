//! What becomes of a subproblem when it is made: a leaf of the tree, one that stays open, or one that waits to be split.
ghost use Rattle.std.specs.Prelude.{◌≡◌, ◌≤ℤ◌, ◌<ℤ◌, ℕ, IfOk, IfSome, IsSomeAnd, MatchBool, OnErr};
ghost use Rattle.fleet_model.specs.Kept.{kept_by};
ghost use Rattle.fleet_model.specs.Whole.{KeepAllowed};
ghost use Rattle.plan_judge.specs.LegalPlans.{IsLegalPlan};
ghost use Rattle.dual_bound.specs.Fractions.{IsMixedWhole};
ghost use Rattle.dual_bound.specs.Prices.{ArePrices};
ghost use Rattle.node_bounding.specs.Examined.{IsBounded, IsExamined, IsStoppedWith, IsWholeOffered};
ghost use Rattle.node_bounding.specs.Relaxed.{AreGood, IsBestPoint};
ghost use Rattle.node_bounding.specs.Runs.{IsSearched};
ghost use Rattle.node_bounding.specs.Subproblems.{cost_of_plan};
ghost use Rattle.node_bounding.specs.Wholes.{IsSplitPair};

use crate::made_prices::copied;
use crate::offers::{offer, offer_sole};
use crate::relaxing::{Relaxed, relax};
use crate::states::{Fraction, State, Stopped};
use crate::wholes::{first_partial, flown_parts};
use dual_bound::{Cause, Prices, Tree, rounded_worth};
use entries::NoMemory;
use fleet_model::{Kept, Pair, Sizes, Tables};
use lp_rows::Program;
use plan_judge::LegalPlan;
use price_lift::BestPoint;
use simplex_frac::end_check::EndFinder;
use std::alloc::Global;

/// Examines a subproblem, whose nearest split above has these prices, with at most so many pivots or no budget of
/// them. A plan that is found
/// at it takes the place of the best one where it is cheaper, and where memory is wanting the best one is as it was. A
/// subproblem with a bare leg, or with one assignment, takes no memory.
pub fn examine<S: EndFinder<Program>>(
    alloc: Global,
    tables: &Tables,
    pivots: Option<u64>,
    best: &mut Option<LegalPlan>,
    kept: &Kept,
    above: &Prices,
) -> Result<State, NoMemory>
    requires best { IfSome best.old (IsLegalPlan tables.now) }
    requires allowed { KeepAllowed tables.now (kept_by kept.now) }
    requires above { AreGood tables.now above.now }
    ensures examined { IfOk result (IsExamined tables.now pivots best.old best.new (kept_by kept.now) above.now) }
    ensures unchanged { OnErr result (best.new ≡ best.old) }
    ensures memory { OnErr result (IsSearched tables.now (kept_by kept.now)) }
{
    if let Some(leg) = kept.bare_leg(tables) {
        return Ok(State::Leaf(Tree::Bare { leg }));
    }
    if offer_sole(tables, kept, best) {
        return Ok(State::Leaf(Tree::Sole));
    }
    match relax::<S>(alloc, tables, kept, pivots)? {
        Relaxed::Refuted(prices) => Ok(State::Leaf(Tree::Refuted(prices))),
        Relaxed::Stopped(why) => Ok(stopped(tables, kept, copied(alloc, above)?, why)),
        Relaxed::Bounded(point) => Ok(bounded(tables, best, kept, point)),
    }
}

// What becomes of a subproblem whose run gave no prices: it takes those of the nearest split above.
fn stopped(tables: &Tables, kept: &Kept, prices: Prices, why: Cause) -> State
    requires { ArePrices tables.now prices }
    ensures { IsStoppedWith tables.now (kept_by kept.now) prices why result }
{
    let worth = rounded_worth(tables, Sizes::Own, kept, &prices);
    State::Stopped(Stopped { prices, why, worth })
}

// What becomes of a subproblem whose best fractional assignment is known.
fn bounded(tables: &Tables, best: &mut Option<LegalPlan>, kept: &Kept, point: BestPoint) -> State
    requires plan { IfSome best.old (IsLegalPlan tables.now) }
    requires allowed { KeepAllowed tables.now (kept_by kept.now) }
    requires searched { IsSearched tables.now (kept_by kept.now) }
    requires best { IsBestPoint tables.now (kept_by kept.now) point }
    ensures { IsBounded tables.now best.old best.new (kept_by kept.now) result }
{
    match first_partial(tables, &point.mixed) {
        None => {
            offer_whole(tables, best, kept, &point);
            State::Leaf(Tree::Priced(point.prices))
        }
        Some(pair) => divided(tables, best, kept, point, pair),
    }
}

// What becomes of a subproblem whose best fractional assignment flies a pair in part.
fn divided(
    tables: &Tables,
    best: &Option<LegalPlan>,
    kept: &Kept,
    point: BestPoint,
    pair: Pair,
) -> State
    requires plan { IfSome best.now (IsLegalPlan tables.now) }
    requires searched { IsSearched tables.now (kept_by kept.now) }
    requires best { IsBestPoint tables.now (kept_by kept.now) point }
    requires pair { IsSplitPair tables.now point.mixed pair }
    ensures { IsBounded tables.now best.now best.now (kept_by kept.now) result }
{
    let worth = rounded_worth(tables, Sizes::Own, kept, &point.prices);
    if is_reached(&worth, best) {
        return State::Leaf(Tree::Priced(point.prices));
    }
    State::Waiting(Fraction {
        pair,
        best: point,
        worth,
    })
}

// Offers the assignment that a whole fractional assignment is.
//
// It has an assignment on the stack, and so is kept out of the frames of the search.
#[inline(never)]
fn offer_whole(tables: &Tables, best: &mut Option<LegalPlan>, kept: &Kept, point: &BestPoint)
    requires plan { IfSome best.old (IsLegalPlan tables.now) }
    requires allowed { KeepAllowed tables.now (kept_by kept.now) }
    requires best { IsBestPoint tables.now (kept_by kept.now) point.now }
    requires whole { IsMixedWhole tables.now point.now.mixed }
    ensures { IsWholeOffered tables.now (kept_by kept.now) point.now.prices best.old best.new }
{
    let flown = flown_parts(tables, &point.mixed);
    offer(tables, flown, best);
}

/// Whether there is a plan, and a rounded worth reaches its cost.
pub fn is_reached(worth: &i128, best: &Option<LegalPlan>) -> bool
    ensures { MatchBool result (IsSomeAnd (cost_of_plan best.now) (λ c. c ≤ℤ worth.now)) (IfSome (cost_of_plan best.now) (λ c. worth.now <ℤ c)) }
{
    match best {
        None => false,
        Some(plan) => plan.cost <= *worth,
    }
}
