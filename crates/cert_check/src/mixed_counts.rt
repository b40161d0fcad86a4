//! What a fractional assignment flies, in parts of its scale.
ghost use Rattle.std.specs.Prelude.{◌≡◌, ◌<◌, ◌≤◌};
ghost use Rattle.fleet_model.specs.Mixed.{weight_on};
ghost use Rattle.fleet_model.specs.Schedule.{IsPair, fleets_in, legs_in};
ghost use Rattle.dual_bound.specs.Prices.{max_scale};
ghost use Rattle.dual_bound.specs.Fractions.{AreMixedParts, parts_in, parts_of_leg};
ghost use Rattle.stand_counts.specs.Flights.{of_fleet};

use dual_bound::WeightFinder;
use fleet_model::{Pair, Tables};
use stand_counts::Flights;

/// How many parts a leg has.
pub(crate) fn leg_parts(tables: &Tables, mixed: &WeightFinder<'_>) -> u128
    requires { AreMixedParts tables.now mixed.now }
    ensures value { result ≡ parts_of_leg mixed.now }
    ensures few { result ≤ max_scale }
{
    mixed.scale().unsigned_abs()
}

/// How many parts of its leg a pair has.
pub(crate) fn parts(tables: &Tables, mixed: &WeightFinder<'_>, pair: Pair) -> u128
    requires parts { AreMixedParts tables.now mixed.now }
    requires pair { IsPair tables.now pair }
    ensures value { result ≡ parts_in mixed.now pair }
    ensures few { result ≤ max_scale }
{
    mixed.weight(pair).unsigned_abs()
}

/// How many parts all pairs of a leg have.
pub(crate) fn weight_on(tables: &Tables, mixed: &WeightFinder<'_>, leg: u32) -> u128
    requires parts { AreMixedParts tables.now mixed.now }
    requires leg { leg < legs_in tables.now }
    ensures { result ≡ weight_on tables.now (parts_in mixed.now) leg }
{
    let mut sum = 0;
    for choice in 0..tables.choice_count(leg) {
        sum += parts(tables, mixed, Pair { leg, choice });
    }
    sum
}

/// The flights of one fleet by a fractional assignment.
#[derive(Clone, Copy)]
pub(crate) struct Parted<'a, 'b> {
    pub mixed: &'a WeightFinder<'b>,
    pub fleet: u32,
}

impl Flights for Parted<'_, '_> {
    ghost flights = { λ t it. of_fleet t (parts_in it.mixed.now) it.fleet };

    ghost fit = { λ t it. AreMixedParts t it.mixed.now × (it.fleet < fleets_in t) };

    ghost most = { max_scale };

    fn count(&self, tables: &Tables) -> u32 {
        tables.departure_count()
    }

    fn pair(&self, tables: &Tables, departure: u32) -> Pair {
        tables.pair_on(departure, self.fleet)
    }

    fn weight(&self, tables: &Tables, pair: Pair) -> u128 {
        parts(tables, self.mixed, pair)
    }
}
