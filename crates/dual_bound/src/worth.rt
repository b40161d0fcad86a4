//! The bound that prices give in a subproblem.
ghost use Rattle.std.specs.Prelude.{◌≡◌, ℕ, ◌<◌, ◌≤◌, ◌+◌, ◌*◌, ◌-ℤ◌, ◌*ℤ◌, pos};
ghost use Rattle.sums.specs.Below.{sum_below_ℤ};
ghost use Rattle.fleet_model.specs.declared.limits.TheConstants.{MAX_AIRCRAFT};
ghost use Rattle.fleet_model.specs.Kept.{kept_by};
ghost use Rattle.fleet_model.specs.Limits.{IsCost};
ghost use Rattle.fleet_model.specs.Schedule.{IsPair, fleet_by, fleets_in, leg_of, legs_in, stations_in};
ghost use Rattle.fleet_model.specs.Times.{departure, laps_of, ready_minute};
ghost use Rattle.dual_bound.specs.Prices.{AreWithin, IsScale, price_of, rent_of};
ghost use Rattle.dual_bound.specs.Sizes.{IsUpTo};
ghost use Rattle.dual_bound.specs.Worth.{cost_units, leg_worth, lesser, pair_worth, rents_of, worth_of};

use crate::price_finder::PriceFinder;
use crate::prices::Prices;
use crate::sized::{price, rent};
use crate::worth_less::all_charges;
use fleet_model::{Kept, Pair, Tables};

/// The worth of prices in a subproblem, over their scale: with `k` = 1 a bound on what each legal assignment of
/// kept pairs costs; with `k` = 0, where it is above 0, a proof that there is none. A leg that keeps no pair adds 0.
///
/// It asks for the limits of the scale, the rents, the prices and the charges alone. It looks at each kept pair. Where
/// the steps of the prices rise by fleet, station and minute, it finds two prices there by bisection, and none where the
/// fleet has neither rent nor step; else it looks twice at each step. For each day of each station with a limit it looks
/// at each charge. Takes no memory.
pub fn worth(tables: &Tables, kept: &Kept, prices: &Prices, k: u8) -> i128
    requires scale { IsScale prices.now.scale }
    requires within { AreWithin tables.now prices.now }
    requires k { k ≤ 1 }
    ensures { result ≡ worth_of tables.now (kept_by kept.now) prices.now k }
{
    total_worth(tables, kept, &PriceFinder::new(prices), k)
}

/// The worth of prices, with its size.
pub(crate) fn total_worth(tables: &Tables, kept: &Kept, prices: &PriceFinder<'_>, k: u8) -> i128
    requires scale { IsScale prices.now.scale }
    requires within { AreWithin tables.now prices.now }
    requires k { k ≤ 1 }
    ensures value { result ≡ worth_of tables.now (kept_by kept.now) prices.now k }
    ensures size { IsUpTo (7 * legs_in tables.now + MAX_AIRCRAFT * fleets_in tables.now + 70000 * stations_in tables.now) result }
{
    legs_worth(tables, kept, prices, k) - all_rents(tables, prices) - all_charges(tables, prices)
}

// What the legs are worth, added up.
fn legs_worth(tables: &Tables, kept: &Kept, prices: &PriceFinder<'_>, k: u8) -> i128
    requires scale { IsScale prices.now.scale }
    requires within { AreWithin tables.now prices.now }
    requires k { k ≤ 1 }
    ensures value { result ≡ sum_below_ℤ (leg_worth tables.now (kept_by kept.now) prices.now k) (legs_in tables.now) }
    ensures size { IsUpTo (7 * legs_in tables.now) result }
{
    let mut sum = 0;
    for leg in 0..tables.leg_count() {
        sum += leg_worth(tables, kept, prices, k, leg);
    }
    sum
}

// The least worth of a leg's kept pairs.
#[tactic(auto, unfolding(crate::specs::Worth::leg_worth, crate::specs::Worth::least_below))]
fn leg_worth(tables: &Tables, kept: &Kept, prices: &PriceFinder<'_>, k: u8, leg: u32) -> i128
    requires scale { IsScale prices.now.scale }
    requires within { AreWithin tables.now prices.now }
    requires k { k ≤ 1 }
    requires leg { leg < legs_in tables.now }
    ensures value { result ≡ leg_worth tables.now (kept_by kept.now) prices.now k leg }
    ensures size { IsUpTo 7 result }
{
    let mut least = None;
    for choice in 0..tables.choice_count(leg) {
        if kept.kept(leg, choice) {
            let worth = pair_worth(tables, prices, k, Pair { leg, choice });
            least = Some(lesser(&least, &worth));
        }
    }
    least.unwrap_or(0)
}

// The lesser of two numbers, of which the first may not be there.
fn lesser(first: &Option<i128>, second: &i128) -> i128
    ensures { result ≡ lesser first.now second.now }
{
    match first {
        Some(number) if *number <= *second => *number,
        _ => *second,
    }
}

// What a pair costs by prices: its cost alone where no fleet flies it, or where prices and rents are 0 of its fleet.
fn pair_worth(tables: &Tables, prices: &PriceFinder<'_>, k: u8, pair: Pair) -> i128
    requires scale { IsScale prices.now.scale }
    requires within { AreWithin tables.now prices.now }
    requires k { k ≤ 1 }
    requires pair { IsPair tables.now pair }
    ensures value { result ≡ pair_worth tables.now prices.now k pair }
    ensures size { IsUpTo 7 result }
{
    let fleet = tables.fleet_by(pair);
    if fleet >= tables.fleet_count() {
        return scaled_cost(tables, prices.scale(), k, pair);
    }
    flown_worth(tables, prices, k, pair, fleet)
}

// What a pair costs by prices that a fleet flies: where prices and rents are 0 of the fleet, its cost alone.
fn flown_worth(tables: &Tables, prices: &PriceFinder<'_>, k: u8, pair: Pair, fleet: u32) -> i128
    requires scale { IsScale prices.now.scale }
    requires within { AreWithin tables.now prices.now }
    requires k { k ≤ 1 }
    requires pair { IsPair tables.now pair }
    requires by { fleet ≡ fleet_by tables.now pair }
    requires flown { fleet < fleets_in tables.now }
    ensures value { result ≡ pair_worth tables.now prices.now k pair }
    ensures size { IsUpTo 7 result }
{
    if prices.is_idle(fleet) {
        return scaled_cost(tables, prices.scale(), k, pair);
    }
    priced_worth(tables, prices, k, pair, fleet)
}

// What a pair costs by prices that a fleet flies.
fn priced_worth(tables: &Tables, prices: &PriceFinder<'_>, k: u8, pair: Pair, fleet: u32) -> i128
    requires scale { IsScale prices.now.scale }
    requires within { AreWithin tables.now prices.now }
    requires k { k ≤ 1 }
    requires pair { IsPair tables.now pair }
    requires by { fleet ≡ fleet_by tables.now pair }
    requires flown { fleet < fleets_in tables.now }
    ensures value { result ≡ pair_worth tables.now prices.now k pair }
    ensures size { IsUpTo 7 result }
{
    scaled_cost(tables, prices.scale(), k, pair)
        + price_fall(tables, prices, pair, fleet)
        + lap_rents(tables, prices, pair, fleet)
}

// k times the cost of a pair, over the scale; 0 where it may not be taken.
fn scaled_cost(tables: &Tables, scale: &i128, k: u8, pair: Pair) -> i128
    requires scale { IsScale scale.now }
    requires k { k ≤ 1 }
    ensures value { result ≡ pos k *ℤ scale.now *ℤ cost_units tables.now pair }
    ensures size { IsUpTo 3 result }
{
    if k == 0 {
        return 0;
    }
    *scale * cost_units(tables, pair)
}

/// The cost of a pair, and 0 where it may not be taken.
pub fn cost_units(tables: &Tables, pair: Pair) -> i128
    ensures value { result ≡ cost_units tables.now pair }
    ensures fits { IsCost result }
{
    tables.cost(pair).unwrap_or(0)
}

// What an aircraft is worth where and when it departs, less what it is worth where and when it is ready.
fn price_fall(tables: &Tables, prices: &PriceFinder<'_>, pair: Pair, fleet: u32) -> i128
    requires within { AreWithin tables.now prices.now }
    requires pair { IsPair tables.now pair }
    requires flown { fleet < fleets_in tables.now }
    ensures value { result ≡ price_of prices.now fleet (leg_of tables.now pair.leg).from (departure tables.now pair)
        -ℤ price_of prices.now fleet (leg_of tables.now pair.leg).to (ready_minute tables.now pair) }
    ensures size { IsUpTo 2 result }
{
    let flown = tables.leg(pair.leg);
    price(tables, prices, fleet, flown.from, tables.departure(pair))
        - price(tables, prices, fleet, flown.to, tables.ready(pair))
}

// The rent of a pair's aircraft for each period start between departure and readiness.
fn lap_rents(tables: &Tables, prices: &PriceFinder<'_>, pair: Pair, fleet: u32) -> i128
    requires within { AreWithin tables.now prices.now }
    requires pair { IsPair tables.now pair }
    requires flown { fleet < fleets_in tables.now }
    ensures value { result ≡ rent_of prices.now fleet *ℤ pos (laps_of tables.now pair) }
    ensures size { IsUpTo 2 result }
{
    rents_for(tables, prices, fleet, tables.laps(pair))
}

// The rents of all aircraft.
fn all_rents(tables: &Tables, prices: &PriceFinder<'_>) -> i128
    requires { AreWithin tables.now prices.now }
    ensures value { result ≡ sum_below_ℤ (rents_of tables.now prices.now) (fleets_in tables.now) }
    ensures size { IsUpTo (MAX_AIRCRAFT * fleets_in tables.now) result }
{
    let mut sum = 0;
    for fleet in 0..tables.fleet_count() {
        sum += fleet_rents(tables, prices, fleet);
    }
    sum
}

/// The rents of a fleet's aircraft.
pub(crate) fn fleet_rents(tables: &Tables, prices: &PriceFinder<'_>, fleet: u32) -> i128
    requires within { AreWithin tables.now prices.now }
    requires fleet { fleet < fleets_in tables.now }
    ensures value { result ≡ rents_of tables.now prices.now fleet }
    ensures size { IsUpTo MAX_AIRCRAFT result }
{
    rents_for(tables, prices, fleet, tables.fleet(fleet).aircraft)
}

/// The rents of so many aircraft of a fleet.
pub(crate) fn rents_for(tables: &Tables, prices: &PriceFinder<'_>, fleet: u32, count: u32) -> i128
    requires within { AreWithin tables.now prices.now }
    requires fleet { fleet < fleets_in tables.now }
    requires count { count ≤ MAX_AIRCRAFT }
    ensures value { result ≡ rent_of prices.now fleet *ℤ pos count }
    ensures size { IsUpTo MAX_AIRCRAFT result }
    ensures less { (n : ℕ) → count ≤ n → IsUpTo n result }
{
    rent(tables, prices, fleet) * i128::from(count)
}
