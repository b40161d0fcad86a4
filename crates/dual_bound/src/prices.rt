ghost use Rattle.std.specs.Prelude.{◌≡◌};
ghost use Rattle.dual_bound.specs.Prices.{rent_of};

use entries::Entries;

/// The greatest scale of prices and of fractional assignments.
pub const MAX_SCALE: i128 = 1_000_000_000_000_000_000;

/// The greatest rent and charge, and the greatest size of a price.
pub const MAX_PRICE: i128 = 1_000_000_000_000_000_000_000_000_000_000;

/// The greatest size of a number of a proof, 2^127 - 1.
pub const MAX_SIZE: u128 = 170_141_183_460_469_231_731_687_303_715_884_105_727;

/// A change of a fleet's price at a station: from this minute on it is `value`, until the next step.
#[derive(Clone, Copy)]
pub struct PriceStep {
    /// The fleet, by its number.
    pub fleet: u32,
    /// The station, by its number.
    pub station: u32,
    /// The minute, counted from the day start.
    pub minute: u16,
    /// The price, in cost units over the scale.
    pub value: i128,
}

/// What it costs that an aircraft of any fleet stands at a station at the end of a day.
#[derive(Clone, Copy)]
pub struct Charge {
    /// The station, by its number.
    pub station: u32,
    /// The day of the period, counted from 1.
    pub day: u32,
    /// The charge, in cost units over the scale.
    pub charge: i128,
}

/// Dual prices of a subproblem's constraints: for each fleet what an aircraft at a station is worth, minute by
/// minute, and what the use of an aircraft costs (Hane and others 1995: balance and count); and what it costs that an
/// aircraft stands overnight at a station where only so many may.
#[derive(Drop)]
pub struct Prices {
    /// What all numbers here are over, 1 or more.
    pub scale: i128,
    /// For each fleet, from the first on, the rent of an aircraft; 0 where the list is shorter.
    pub rents: Entries<i128>,
    /// The steps of the prices; a price is 0 before the first step of its fleet and station.
    pub steps: Entries<PriceStep>,
    /// The charges of stations and days, of which the last entry counts; 0 where there is none.
    pub charges: Entries<Charge>,
}

impl Prices {
    /// The rent of an aircraft of a fleet, in cost units over the scale; 0 where the list is shorter. Takes no memory.
    pub fn rent(&self, fleet: u32) -> i128
        ensures { result ≡ rent_of self.now fleet }
    {
        match self.rents.as_slice().get(fleet as usize) {
            Some(rent) => *rent,
            None => 0,
        }
    }
}
