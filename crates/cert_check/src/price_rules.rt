//! Whether prices are proper, rule by rule.
//!
//! Between two steps a price stays, so it is looked at only where a step stands. Where the steps rise by fleet, station
//! and minute, each rule is told in one pass; else each call takes a look at each step for each step at most. For each
//! charge, and for each step at the beginning of a day, it looks at each charge.
ghost use Rattle.std.specs.Prelude.{◌≡◌, ◌<◌, ◌≤◌, MatchBool, ◌≤ℤ◌, ◌<ℤ◌, length};
ghost use Rattle.fleet_model.specs.Schedule.{period_of, stations_in};
ghost use Rattle.dual_bound.specs.Order.{same_place};
ghost use Rattle.dual_bound.specs.Rising.{step_at};
ghost use Rattle.dual_bound.specs.OfTables.{ArePricesOf, IsChargeOf, IsStepOf};
ghost use Rattle.dual_bound.specs.Sizes.{IsUpTo};
ghost use Rattle.dual_bound.specs.Prices.{AreCharges, AreRents, AreWithin, IsCharge, IsPrice, IsRent, IsScale, NeverRise, RiseByRent, with_charge};
ghost use Rattle.cert_check.specs.PriceRules.{AreChargesAt, AreWithinAtSteps, FallAtSteps, FallsAt, IsChargeAt, IsWithinAt, RiseAtSteps, RiseBefore, RisesByRentAt, entry_at, goes_on_at};

use dual_bound::prices::{MAX_PRICE, MAX_SCALE};
use dual_bound::sized::{charge, price, rent};
use dual_bound::{Charge, PriceFinder, PriceStep, Prices};
use fleet_model::Tables;
use fleet_model::period::{days_ended, ends_day};

/// Whether a scale is 1 or more and within its limit. Takes no memory.
pub(crate) fn is_scale(scale: &i128) -> bool
    ensures { MatchBool result (IsScale scale.now) (¬ (IsScale scale.now)) }
{
    1 <= *scale && *scale <= MAX_SCALE
}

/// Whether rents, prices and charges are within their limits. Takes no memory.
#[tactic(auto, using(crate::proofs::PriceSteps::within_by_steps))]
pub(crate) fn are_within(tables: &Tables, prices: &Prices) -> bool
    requires { ArePricesOf tables.now prices.now }
    ensures { MatchBool result (AreWithin tables.now prices.now) (¬ (AreWithin tables.now prices.now)) }
{
    are_charges(tables, prices)
        && are_rents(tables, prices)
        && are_steps_within(tables, &PriceFinder::new(prices))
}

/// Whether no price rises from one minute to the next, but by a charge. Takes no memory.
#[tactic(auto, using(crate::proofs::PriceSteps::falls_by_steps))]
pub(crate) fn never_rise(tables: &Tables, prices: &Prices) -> bool
    requires known { ArePricesOf tables.now prices.now }
    requires within { AreWithin tables.now prices.now }
    ensures { MatchBool result (NeverRise tables.now prices.now) (¬ (NeverRise tables.now prices.now)) }
{
    steps_fall(tables, &PriceFinder::new(prices))
}

/// Whether no price rises by more than the rent over the end of the period, but by a charge. Takes no memory.
#[tactic(auto, using(crate::proofs::PriceSteps::rises_by_steps))]
pub(crate) fn rise_by_rent(tables: &Tables, prices: &Prices) -> bool
    requires known { ArePricesOf tables.now prices.now }
    requires within { AreWithin tables.now prices.now }
    ensures { MatchBool result (RiseByRent tables.now prices.now) (¬ (RiseByRent tables.now prices.now)) }
{
    steps_rise_by_rent(tables, &PriceFinder::new(prices))
}

// Whether the rents of all fleets are proper.
fn are_rents(tables: &Tables, prices: &Prices) -> bool
    ensures { MatchBool result (AreRents tables.now prices.now) (¬ (AreRents tables.now prices.now)) }
{
    for fleet in 0..tables.fleet_count() {
        if !is_rent(&prices.rent(fleet)) {
            return false;
        }
    }
    true
}

// Whether a rent is 0 or more and within its limit.
fn is_rent(rent: &i128) -> bool
    ensures { MatchBool result (IsRent rent.now) (¬ (IsRent rent.now)) }
{
    0 <= *rent && *rent <= MAX_PRICE
}

// Whether prices are within their limits wherever a step stands.
fn are_steps_within(tables: &Tables, prices: &PriceFinder<'_>) -> bool
    ensures { MatchBool result (AreWithinAtSteps tables.now prices.now) (¬ (AreWithinAtSteps tables.now prices.now)) }
{
    for place in 0..prices.step_count() {
        if !is_within_at(tables, prices, place) {
            return false;
        }
    }
    true
}

// Whether the price is within its limits where a step stands.
fn is_within_at(tables: &Tables, prices: &PriceFinder<'_>, place: usize) -> bool
    requires { place < length prices.now.steps }
    ensures { MatchBool result (IsWithinAt tables.now prices.now (step_at prices.now place)) (¬ (IsWithinAt tables.now prices.now (step_at prices.now place))) }
{
    prices.step(place).minute >= tables.period() || is_price(&prices.price_at(place))
}

// Whether a price is within its limits.
fn is_price(price: &i128) -> bool
    ensures { MatchBool result (IsPrice price.now) (¬ (IsPrice price.now)) }
{
    -MAX_PRICE <= *price && *price <= MAX_PRICE
}

// Whether the charges of all stations and days are within their limits.
#[tactic(auto, using(crate::proofs::ChargeEntries::charged_by_entries))]
fn are_charges(tables: &Tables, prices: &Prices) -> bool
    requires { ArePricesOf tables.now prices.now }
    ensures { MatchBool result (AreCharges tables.now prices.now) (¬ (AreCharges tables.now prices.now)) }
{
    are_entries_within(tables, prices)
}

// Whether charges are within their limits wherever an entry tells one.
fn are_entries_within(tables: &Tables, prices: &Prices) -> bool
    requires { ArePricesOf tables.now prices.now }
    ensures { MatchBool result (AreChargesAt tables.now prices.now) (¬ (AreChargesAt tables.now prices.now)) }
{
    for place in 0..prices.charges.len() {
        if !is_charge_at(tables, prices, entry_at(prices, place)) {
            return false;
        }
    }
    true
}

// The entry of charges at a place.
fn entry_at(prices: &Prices, place: usize) -> &Charge
    requires { place < length prices.now.charges }
    ensures { result.now ≡ entry_at prices.now place }
{
    &prices.charges.as_slice()[place]
}

// Whether the charge of an entry's station and day is within its limits, where the period has the day.
fn is_charge_at(tables: &Tables, prices: &Prices, entry: &Charge) -> bool
    requires { IsChargeOf tables.now entry.now }
    ensures { MatchBool result (IsChargeAt tables.now prices.now entry.now) (¬ (IsChargeAt tables.now prices.now entry.now)) }
{
    if entry.day == 0 || entry.day > tables.day_count() {
        return true;
    }
    is_charge(tables, prices, entry.station, entry.day)
}

// Whether a charge is 0 or more, within its limit, and 0 where any number of aircraft may stand at the station.
fn is_charge(tables: &Tables, prices: &Prices, station: u32, day: u32) -> bool
    requires { station < stations_in tables.now }
    ensures { MatchBool result (IsCharge tables.now prices.now station day) (¬ (IsCharge tables.now prices.now station day)) }
{
    let charge = prices.charge(station, day);
    match tables.parking(station) {
        Some(_) => is_rent(&charge),
        None => charge == 0,
    }
}

// Whether no price rises where a step stands, but by a charge.
fn steps_fall(tables: &Tables, prices: &PriceFinder<'_>) -> bool
    requires known { ArePricesOf tables.now prices.now }
    requires within { AreWithin tables.now prices.now }
    ensures { MatchBool result (FallAtSteps tables.now prices.now) (¬ (FallAtSteps tables.now prices.now)) }
{
    for place in 0..prices.step_count() {
        if !falls_at(tables, prices, place) {
            return false;
        }
    }
    true
}

// Whether the price does not rise where a step stands, but by a charge.
fn falls_at(tables: &Tables, prices: &PriceFinder<'_>, place: usize) -> bool
    requires place { place < length prices.now.steps }
    requires known { IsStepOf tables.now (step_at prices.now place) }
    requires within { AreWithin tables.now prices.now }
    ensures { MatchBool result (FallsAt tables.now prices.now (step_at prices.now place)) (¬ (FallsAt tables.now prices.now (step_at prices.now place))) }
{
    let step = prices.step(place);
    if step.minute == 0 || step.minute >= tables.period() {
        return true;
    }
    let before = prices.price_before(place);
    is_no_more(
        &prices.price_at(place),
        &with_charge(tables, prices, step.station, step.minute - 1, &before),
    )
}

// What a price at a minute may be a minute later: the price, and what the station charges where the minute ends a day.
#[tactic(auto, unfolding(dual_bound::specs::Prices::with_charge))]
fn with_charge(
    tables: &Tables,
    prices: &PriceFinder<'_>,
    station: u32,
    minute: u16,
    price: &i128,
) -> i128
    requires within { AreWithin tables.now prices.now }
    requires station { station < stations_in tables.now }
    requires minute { minute < period_of tables.now }
    requires price { IsUpTo 2 price.now }
    ensures { result ≡ with_charge prices.now station minute price.now }
{
    if !ends_day(minute) {
        return *price;
    }
    *price + charge(tables, prices, station, days_ended(minute))
}

/// Whether a number is no more than another.
pub(crate) fn is_no_more(first: &i128, second: &i128) -> bool
    ensures { MatchBool result (first.now ≤ℤ second.now) (second.now <ℤ first.now) }
{
    *first <= *second
}

// Whether no price rises by more than the rent over the end of the period, but by a charge, of those with a step.
fn steps_rise_by_rent(tables: &Tables, prices: &PriceFinder<'_>) -> bool
    requires known { ArePricesOf tables.now prices.now }
    requires within { AreWithin tables.now prices.now }
    ensures { MatchBool result (RiseAtSteps tables.now prices.now) (¬ (RiseAtSteps tables.now prices.now)) }
{
    for place in 0..prices.step_count() {
        if !rises_too(tables, prices, place) {
            return false;
        }
    }
    true
}

// Whether the price of the fleet and station of the step at a place rises by the rent at most over the end of the
// period, but for a charge, where those of the steps before it do. Where the one before it is of the same, there is
// nothing to look at.
fn rises_too(tables: &Tables, prices: &PriceFinder<'_>, place: usize) -> bool
    requires known { ArePricesOf tables.now prices.now }
    requires within { AreWithin tables.now prices.now }
    requires place { place < length prices.now.steps }
    requires before { RiseBefore tables.now prices.now place }
    ensures { MatchBool result (RisesByRentAt tables.now prices.now (step_at prices.now place)) (¬ (RisesByRentAt tables.now prices.now (step_at prices.now place))) }
{
    if goes_on(prices, place) {
        return true;
    }
    rises_by_rent_at(tables, prices, prices.step(place))
}

// Whether the step before a place is of the same fleet at the same station.
fn goes_on(prices: &PriceFinder<'_>, place: usize) -> bool
    requires { place < length prices.now.steps }
    ensures { result ≡ goes_on_at prices.now place }
{
    if place == 0 {
        return false;
    }
    is_same_place(prices.step(place - 1), prices.step(place))
}

// Whether two steps are of one fleet at one station.
fn is_same_place(a: &PriceStep, b: &PriceStep) -> bool
    ensures { result ≡ same_place a.now b.now }
{
    a.fleet == b.fleet && a.station == b.station
}

// Whether the price of a step's fleet and station rises by the rent at most over the end of the period, but for a charge.
fn rises_by_rent_at(tables: &Tables, prices: &PriceFinder<'_>, step: &PriceStep) -> bool
    requires known { IsStepOf tables.now step.now }
    requires within { AreWithin tables.now prices.now }
    ensures { MatchBool result (RisesByRentAt tables.now prices.now step.now) (¬ (RisesByRentAt tables.now prices.now step.now)) }
{
    let end = tables.period() - 1;
    let first = price(tables, prices, step.fleet, step.station, 0);
    let last = price(tables, prices, step.fleet, step.station, end);
    let rent = rent(tables, prices, step.fleet);
    is_no_more(
        &first,
        &with_charge(tables, prices, step.station, end, &(last + rent)),
    )
}
