ghost use Rattle.std.specs.Prelude.{◌≡◌, pos};
ghost use Rattle.dual_bound.specs.Mixed.{weight_after, weight_in};

use entries::Entries;
use fleet_model::Pair;

/// How much of a leg takes a choice, in parts of a scale.
#[derive(Clone, Copy)]
pub struct Weight {
    /// The leg, by its number.
    pub leg: u32,
    /// The choice, by its number.
    pub choice: u32,
    /// How many parts.
    pub weight: i128,
}

/// A fractional assignment, a point of the linear relaxation: of each leg `scale` parts in all, each of one choice.
#[derive(Drop)]
pub struct Mixed {
    /// How many parts a leg has, 1 or more.
    pub scale: i128,
    /// The weights of pairs; a pair has its last entry's weight, and 0 where it has no entry.
    pub weights: Entries<Weight>,
}

impl Mixed {
    /// The weight of a pair. It looks at each entry once. Takes no memory.
    pub fn weight(&self, pair: Pair) -> i128
        ensures { result ≡ weight_in self.now pair }
    {
        last_weight(self.weights.as_slice(), pair)
    }
}

/// What the last entry of a pair says, and 0 where it has none.
#[tactic(auto, unfolding(crate::specs::Mixed::weight_after))]
pub(crate) fn last_weight(weights: &[Weight], pair: Pair) -> i128
    ensures { result ≡ weight_after (pos 0) weights.now pair }
{
    let mut last = 0;
    for weight in weights {
        if weight.leg == pair.leg && weight.choice == pair.choice {
            last = weight.weight;
        }
    }
    last
}
