ghost use Rattle.std.specs.Prelude.{◌≡◌, pos};
ghost use Rattle.dual_bound.specs.Prices.{charge_of, last_charge};

use crate::prices::{Charge, Prices};

impl Prices {
    /// The charge at a station at the end of a day, days counted from 1, in cost units over the scale. It looks at each
    /// charge once. Takes no memory.
    pub fn charge(&self, station: u32, day: u32) -> i128
        ensures { result ≡ charge_of self.now station day }
    {
        last_charge(self.charges.as_slice(), station, day)
    }
}

// What the last entry says of those of a station and a day, and 0 where there is none.
#[tactic(auto, unfolding(crate::specs::Prices::last_charge))]
fn last_charge(charges: &[Charge], station: u32, day: u32) -> i128
    ensures { result ≡ last_charge (pos 0) charges.now station day }
{
    let mut charge = 0;
    for entry in charges {
        if entry.station == station && entry.day == day {
            charge = entry.charge;
        }
    }
    charge
}
