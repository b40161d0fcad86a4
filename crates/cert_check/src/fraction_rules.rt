//! Whether the fractional assignment of a node is the best of its subproblem, and not whole.
ghost use Rattle.std.specs.Prelude.{◌≡◌, ◌*◌, ◌<◌, MatchBool};
ghost use Rattle.sums.specs.Below.{sum_below_ℤ};
ghost use Rattle.fleet_model.specs.Kept.{kept_by};
ghost use Rattle.fleet_model.specs.Mixed.{mixed_cost, weighted_cost};
ghost use Rattle.fleet_model.specs.Schedule.{IsPair, choices_in, leg_on, legs_in};
ghost use Rattle.fleet_model.specs.declared.limits.TheConstants.{MAX_CHOICES};
ghost use Rattle.dual_bound.specs.Mixed.{weight_in};
ghost use Rattle.dual_bound.specs.Prices.{ArePrices};
ghost use Rattle.dual_bound.specs.Sizes.{IsUpTo};
ghost use Rattle.dual_bound.specs.Fractions.{AreMixedParts, IsFraction, IsMixedWhole, IsWholeLeg, IsWholePair, IsEndOfScale, IsWorth, parts_in};
ghost use Rattle.cert_check.specs.MixedRules.{IsSmallWeight};

use dual_bound::worth::{cost_units, worth};
use dual_bound::{Mixed, Prices, WeightFinder};
use fleet_model::{Kept, Pair, Tables};
use frac_row::compare_ratio;
use std::cmp::Ordering;

/// Whether a fractional assignment is not whole, and costs what the prices are worth. Takes no memory.
pub(crate) fn is_fraction(tables: &Tables, kept: &Kept, prices: &Prices, mixed: &Mixed) -> bool
    requires proper { ArePrices tables.now prices.now }
    requires parts { AreMixedParts tables.now mixed.now }
    ensures { MatchBool result (IsFraction tables.now (kept_by kept.now) prices.now mixed.now) (¬ (IsFraction tables.now (kept_by kept.now) prices.now mixed.now)) }
{
    let mixed = WeightFinder::new(mixed);
    !is_whole(tables, &mixed) && is_worth(tables, kept, prices, &mixed)
}

/// Whether a pair is flown wholly or not at all. Takes no memory.
pub(crate) fn is_whole_pair(mixed: &WeightFinder<'_>, leg: u32, choice: u32) -> bool
    ensures { MatchBool result (IsWholePair mixed.now leg choice) (¬ (IsWholePair mixed.now leg choice)) }
{
    is_end(mixed.scale(), &mixed.weight(Pair { leg, choice }))
}

// Whether a weight is 0 or the scale.
fn is_end(scale: &i128, weight: &i128) -> bool
    ensures { MatchBool result (IsEndOfScale scale.now weight.now) (¬ (IsEndOfScale scale.now weight.now)) }
{
    *weight == 0 || *weight == *scale
}

// Whether each pair is flown wholly or not at all.
fn is_whole(tables: &Tables, mixed: &WeightFinder<'_>) -> bool
    ensures { MatchBool result (IsMixedWhole tables.now mixed.now) (¬ (IsMixedWhole tables.now mixed.now)) }
{
    for leg in 0..tables.leg_count() {
        if !is_whole_leg(tables, mixed, leg) {
            return false;
        }
    }
    true
}

// Whether each pair of a leg is.
fn is_whole_leg(tables: &Tables, mixed: &WeightFinder<'_>, leg: u32) -> bool
    requires { leg < legs_in tables.now }
    ensures { MatchBool result (IsWholeLeg tables.now mixed.now leg) (¬ (IsWholeLeg tables.now mixed.now leg)) }
{
    for choice in 0..tables.choice_count(leg) {
        if !is_whole_pair(mixed, leg, choice) {
            return false;
        }
    }
    true
}

// Whether a fractional assignment costs what the prices are worth, each over its scale. The products are too great
// for 128 bits, and so are not formed.
fn is_worth(tables: &Tables, kept: &Kept, prices: &Prices, mixed: &WeightFinder<'_>) -> bool
    requires proper { ArePrices tables.now prices.now }
    requires parts { AreMixedParts tables.now mixed.now }
    ensures { MatchBool result (IsWorth tables.now (kept_by kept.now) prices.now mixed.now) (¬ (IsWorth tables.now (kept_by kept.now) prices.now mixed.now)) }
{
    let cost = cost_of(tables, mixed);
    let bound = worth(tables, kept, prices, 1);
    match compare_ratio(cost, *mixed.scale(), bound, prices.scale) {
        Ordering::Equal => true,
        Ordering::Less | Ordering::Greater => false,
    }
}

// What a fractional assignment costs, times its scale.
#[tactic(auto, unfolding(fleet_model::specs::Mixed::mixed_cost))]
fn cost_of(tables: &Tables, mixed: &WeightFinder<'_>) -> i128
    requires { AreMixedParts tables.now mixed.now }
    ensures { result ≡ mixed_cost tables.now (parts_in mixed.now) }
{
    let mut sum = 0;
    for leg in 0..tables.leg_count() {
        sum += leg_cost(tables, mixed, leg);
    }
    sum
}

// What a leg costs by the weights of its pairs.
fn leg_cost(tables: &Tables, mixed: &WeightFinder<'_>, leg: u32) -> i128
    requires parts { AreMixedParts tables.now mixed.now }
    requires leg { leg < legs_in tables.now }
    ensures value { result ≡ sum_below_ℤ (weighted_cost tables.now (parts_in mixed.now) leg) (choices_in tables.now leg) }
    ensures size { IsUpTo (3 * MAX_CHOICES) result }
{
    let mut sum = 0;
    for choice in 0..tables.choice_count(leg) {
        sum += weighted_cost(tables, mixed, Pair { leg, choice });
    }
    sum
}

// What a pair costs by its weight.
fn weighted_cost(tables: &Tables, mixed: &WeightFinder<'_>, pair: Pair) -> i128
    requires parts { AreMixedParts tables.now mixed.now }
    requires pair { IsPair tables.now pair }
    ensures value { result ≡ weighted_cost tables.now (parts_in mixed.now) pair.leg pair.choice }
    ensures size { IsUpTo 3 result }
{
    weight(tables, mixed, pair) * cost_units(tables, pair)
}

// The weight of a pair, which is within its limits.
fn weight(tables: &Tables, mixed: &WeightFinder<'_>, pair: Pair) -> i128
    requires parts { AreMixedParts tables.now mixed.now }
    requires pair { IsPair tables.now pair }
    ensures value { result ≡ weight_in mixed.now pair }
    ensures size { IsSmallWeight result }
{
    mixed.weight(pair)
}
