//! Fractional assignments that are asked for often.
ghost use Rattle.std.specs.Prelude.{◌≡◌};
ghost use Rattle.dual_bound.specs.Mixed.{weight_in};

use crate::mixed::{Mixed, last_weight};
use crate::rising_weights::{bisect_weights, weights_rise};
use fleet_model::Pair;
use std::marker::Model;

/// A fractional assignment, of which it is known whether its weights rise by leg and choice. Where they do, as in all
/// that is written, the weight of a pair is found by bisection; else each entry is looked at. Contracts see the
/// fractional assignment.
#[derive(Drop)]
pub struct WeightFinder<'a> {
    mixed: &'a Mixed,
    rising: bool,
}

impl<'a> Model for WeightFinder<'a> {
    ghost use Rattle.std.specs.Prelude.{IsTrue};
    ghost use Rattle.dual_bound.specs.declared.mixed.Mixed.{Mixed};

    ghost Value = { Mixed };

    ghost use Rattle.dual_bound.specs.Rising.{WeightsRise};

    ghost view = { λ it. it.mixed.now };

    ghost invariant = { λ it. IsTrue it.rising → WeightsRise it.mixed.now.weights };
}

impl<'a> WeightFinder<'a> {
    /// It looks at each entry once, and takes no memory.
    pub fn new(mixed: &'a Mixed) -> WeightFinder<'a>
        ensures { result ≡ mixed.now }
    {
        let rising = weights_rise(mixed.weights.as_slice());
        WeightFinder { mixed, rising }
    }

    /// How many parts a leg has.
    pub fn scale(&self) -> &i128
        ensures { result.now ≡ self.now.scale }
    {
        &self.mixed.scale
    }

    /// The weight of a pair. Takes no memory.
    pub fn weight(&self, pair: Pair) -> i128
        ensures { result ≡ weight_in self.now pair }
    {
        let weights = self.mixed.weights.as_slice();
        if self.rising {
            bisect_weights(weights, pair)
        } else {
            last_weight(weights, pair)
        }
    }
}
