ghost use Rattle.std.specs.Prelude.{◌≡◌, pos};
ghost use Rattle.dual_bound.specs.Prices.{price_after, price_of};

use crate::prices::{PriceStep, Prices};

impl Prices {
    /// The price of a fleet at a station at a minute, in cost units over the scale. It looks at each step once. Takes
    /// no memory.
    pub fn price(&self, fleet: u32, station: u32, minute: u16) -> i128
        ensures { result ≡ price_of self.now fleet station minute }
    {
        last_come(self.steps.as_slice(), fleet, station, minute)
    }
}

/// What the last step says of those that have come, and 0 where none has.
#[tactic(auto, unfolding(crate::specs::Prices::price_after))]
pub(crate) fn last_come(steps: &[PriceStep], fleet: u32, station: u32, minute: u16) -> i128
    ensures { result ≡ price_after (pos 0) steps.now fleet station minute }
{
    let mut price = 0;
    for step in steps {
        if step.fleet == fleet && step.station == station && step.minute <= minute {
            price = step.value;
        }
    }
    price
}
