//! Lists of weights that rise by leg and choice, and what they say of a pair.
ghost use Rattle.std.specs.Prelude.{◌≡◌, ◌≤◌, ◌<◌, IsTrue, length, pos};
ghost use Rattle.dual_bound.specs.Mixed.{weight_after};
ghost use Rattle.dual_bound.specs.Rising.{IsPairParting, WeightsRise, is_weight_by, weight_before, weight_before_place, weight_of_entry};

use crate::mixed::Weight;
use fleet_model::Pair;

/// Whether each weight's pair comes before that of the next one, by leg and choice. It looks at each weight once.
pub(crate) fn weights_rise(weights: &[Weight]) -> bool
    ensures { IsTrue result → WeightsRise weights.now }
{
    weights.is_sorted_by(|a, b| comes_before(a, b))
}

/// The weight of a pair by weights that rise, found by bisection.
#[tactic(auto, using(crate::proofs::RisingWeights::weight_at_parting))]
pub(crate) fn bisect_weights(weights: &[Weight], pair: Pair) -> i128
    requires { WeightsRise weights.now }
    ensures { result ≡ weight_after (pos 0) weights.now pair }
{
    let place = parting(weights, pair);
    weight_before(weights, place, pair)
}

// Whether a weight's pair comes before another's, by leg and choice.
fn comes_before(a: &Weight, b: &Weight) -> bool
    ensures { result ≡ weight_before a.now b.now }
{
    a.leg < b.leg || a.leg == b.leg && a.choice < b.choice
}

// How many of the weights that rise are of a pair or of one before it.
fn parting(weights: &[Weight], pair: Pair) -> usize
    requires { WeightsRise weights.now }
    ensures { IsPairParting weights.now pair result }
{
    weights.partition_point(|weight| is_by(weight, pair))
}

// Whether a weight is of a pair or of one before it.
fn is_by(weight: &Weight, pair: Pair) -> bool
    ensures { result ≡ is_weight_by pair weight.now }
{
    weight.leg < pair.leg || weight.leg == pair.leg && weight.choice <= pair.choice
}

// The weight of a pair by the entry before a place: its weight where it is the pair's, and else 0.
fn weight_before(weights: &[Weight], place: usize, pair: Pair) -> i128
    requires { place ≤ length weights.now }
    ensures { result ≡ weight_before_place weights.now place pair }
{
    if place == 0 {
        return 0;
    }
    weight_of(&weights[place - 1], pair)
}

// The weight of a pair by an entry: its weight where it is the pair's, and else 0.
fn weight_of(weight: &Weight, pair: Pair) -> i128
    ensures { result ≡ weight_of_entry weight.now pair }
{
    if weight.leg == pair.leg && weight.choice == pair.choice {
        weight.weight
    } else {
        0
    }
}
