//! Prices after rises went to their moments and were paid back.
ghost use Rattle.std.specs.Prelude.{◌≡◌, ◌<◌, ◌≤◌, ◌*◌, ◌++◌, length, slice_index_or, pos, false, true, None, Some, IfErr, IfOk, MatchResult};
ghost use Rattle.sums.specs.Places.{list_below};
ghost use Rattle.fleet_model.specs.Schedule.{fleets_in, period_of, stations_in};
ghost use Rattle.dual_bound.specs.Prices.{AreWithin};
ghost use Rattle.island_prices.specs.Paid.{HasBeyond, IsPaybackError, IsWantedBehindLimit, beyond_at, first_beyond, has_beyond, is_beyond, paid_price, paid_prices, paid_rent};
ghost use Rattle.island_prices.specs.Rises.{AreRises};
ghost use Rattle.island_prices.specs.Rounds.{AreSmall, rounds_of};
ghost use Rattle.island_prices.specs.Steps.{station_steps, steps_below, steps_of};
ghost use Rattle.island_prices.specs.declared.paying.PaybackError.TheVariants as payback;

use crate::growing::{price_grown, rent_grown};
use crate::rises::{Rise, shift_by};
use crate::rounds::Rounds;
use crate::stepping::push_steps;
use dual_bound::prices::MAX_PRICE;
use dual_bound::sized::{price, rent};
use dual_bound::{PriceFinder, PriceStep, Prices};
use entries::{Entries, NoMemory as OutOfMemory};
use fleet_model::Tables;
use std::alloc::Global;
use thiserror::Error;

/// Why prices are not paid back.
#[derive(Clone, Copy, Debug, Error)]
pub enum PaybackError {
    /// A rent or a price of this fleet passes its limit, and none of a fleet before it.
    #[error("a price or the rent of fleet {fleet} is too large")]
    Beyond { fleet: u32 },
    #[error("out of memory")]
    NoMemory,
}

impl From<OutOfMemory> for PaybackError {
    ghost from_gives = { λ _ e. e ≡ payback.NoMemory };

    fn from(_: OutOfMemory) -> PaybackError {
        PaybackError::NoMemory
    }
}

// Prices by the nodes, and what they are changed by.
#[derive(Drop)]
struct Paid<'a> {
    before: PriceFinder<'a>,
    rises: &'a [Rise],
    rounds: &'a Rounds,
}

/// The prices of a subproblem after each rise went to its moment and was paid back, where rents and prices are within
/// their limits. The least idle minute of each station is given.
///
/// It looks at each minute of each fleet at each station, at each rise there, and at each round.
pub fn pay_back(
    alloc: Global,
    tables: &Tables,
    prices: &Prices,
    rises: &[Rise],
    least: Entries<u16>,
) -> Result<Prices, PaybackError>
    requires within { AreWithin tables.now prices.now }
    requires rises { AreRises tables.now rises.now }
    requires least { length least ≡ stations_in tables.now }
    ensures { MatchResult result
        (λ paid. (first_beyond tables.now (paid_rent prices.now (rounds_of tables.now rises.now least)) (paid_price prices.now rises.now (rounds_of tables.now rises.now least)) (fleets_in tables.now) ≡ None)
        × (paid ≡ paid_prices tables.now prices.now rises.now (rounds_of tables.now rises.now least)))
        (IsPaybackError (first_beyond tables.now (paid_rent prices.now (rounds_of tables.now rises.now least)) (paid_price prices.now rises.now (rounds_of tables.now rises.now least)) (fleets_in tables.now))) }
{
    let rounds = Rounds::new(alloc, tables, rises, least)?;
    let paid = Paid {
        before: PriceFinder::new(prices),
        rises,
        rounds: &rounds,
    };
    let steps = steps(alloc, tables, &paid)?;
    let rents = rents(alloc, tables, &paid)?;
    Ok(Prices {
        scale: prices.scale,
        rents: Entries::from_vec(rents),
        steps: Entries::from_vec(steps),
        charges: Entries::from_vec(Vec::new(alloc)),
    })
}

// The steps of all prices, where no fleet has a rent or a price beyond the limit.
fn steps(alloc: Global, tables: &Tables, paid: &Paid<'_>) -> Result<Vec<PriceStep>, PaybackError>
    requires within { AreWithin tables.now paid.now.before }
    requires rises { AreRises tables.now paid.now.rises.now }
    requires rounds { AreSmall paid.now.rounds.now }
    requires stations { length paid.now.rounds.now.moments ≡ stations_in tables.now }
    ensures steps { MatchResult result
        (λ steps. (first_beyond tables.now (paid_rent paid.now.before paid.now.rounds.now) (paid_price paid.now.before paid.now.rises.now paid.now.rounds.now) (fleets_in tables.now) ≡ None)
        × (steps.items ≡ steps_of tables.now (paid_price paid.now.before paid.now.rises.now paid.now.rounds.now)))
        (IsPaybackError (first_beyond tables.now (paid_rent paid.now.before paid.now.rounds.now) (paid_price paid.now.before paid.now.rises.now paid.now.rounds.now) (fleets_in tables.now))) }
    ensures memory { IfErr result (IsWantedBehindLimit (is_beyond (paid_rent paid.now.before paid.now.rounds.now 0))) }
{
    let mut steps = Vec::new(alloc);
    for fleet in 0..tables.fleet_count() {
        match push_fleet(alloc, &mut steps, tables, paid, fleet) {
            Ok(()) => {}
            Err(error) => return Err(error),
        }
    }
    Ok(steps)
}

// Puts the steps of a fleet's prices behind those so far, where neither its rent nor a price is beyond the limit.
fn push_fleet(
    alloc: Global,
    steps: &mut Vec<PriceStep>,
    tables: &Tables,
    paid: &Paid<'_>,
    fleet: u32,
) -> Result<(), PaybackError>
    requires within { AreWithin tables.now paid.now.before }
    requires rises { AreRises tables.now paid.now.rises.now }
    requires rounds { AreSmall paid.now.rounds.now }
    requires stations { length paid.now.rounds.now.moments ≡ stations_in tables.now }
    requires fleet { fleet < fleets_in tables.now }
    ensures pushed { MatchResult result
        (λ _. (has_beyond tables.now (paid_rent paid.now.before paid.now.rounds.now) (paid_price paid.now.before paid.now.rises.now paid.now.rounds.now) fleet ≡ false)
        × (steps.new.items ≡ steps.old.items ++ station_steps (period_of tables.now) (paid_price paid.now.before paid.now.rises.now paid.now.rounds.now fleet) fleet (stations_in tables.now)))
        (HasBeyond (has_beyond tables.now (paid_rent paid.now.before paid.now.rounds.now) (paid_price paid.now.before paid.now.rises.now paid.now.rounds.now) fleet) fleet) }
    ensures memory { IfErr result (IsWantedBehindLimit (is_beyond (paid_rent paid.now.before paid.now.rounds.now fleet))) }
{
    if is_beyond(&paid_rent(tables, paid, fleet)) {
        return Err(PaybackError::Beyond { fleet });
    }
    for station in 0..tables.station_count() {
        let row = row(alloc, tables, paid, fleet, station)?;
        match push_row(steps, &row, fleet, station) {
            Ok(()) => {}
            Err(why) => return Err(why),
        }
    }
    Ok(())
}

// Puts the steps of a fleet's prices at a station behind those so far, where none is beyond the limit.
fn push_row(
    steps: &mut Vec<PriceStep>,
    row: &[i128],
    fleet: u32,
    station: u32,
) -> Result<(), PaybackError>
    requires { length row.now ≤ 10080 }
    ensures pushed { MatchResult result
        (λ _. (beyond_at (λ m. slice_index_or row.now m (pos 0)) (length row.now) ≡ false)
        × (steps.new.items ≡ steps.old.items ++ steps_below (length row.now) (λ m. slice_index_or row.now m (pos 0)) fleet station (length row.now)))
        (HasBeyond (beyond_at (λ m. slice_index_or row.now m (pos 0)) (length row.now)) fleet) }
    ensures memory { IfErr result (IsWantedBehindLimit (beyond_at (λ m. slice_index_or row.now m (pos 0)) (length row.now))) }
{
    if has_beyond(row) {
        Err(PaybackError::Beyond { fleet })
    } else {
        Ok(push_steps(steps, row, fleet, station)?)
    }
}

// The prices of a fleet at a station, minute by minute.
fn row(
    alloc: Global,
    tables: &Tables,
    paid: &Paid<'_>,
    fleet: u32,
    station: u32,
) -> Result<Vec<i128>, OutOfMemory>
    requires within { AreWithin tables.now paid.now.before }
    requires rises { AreRises tables.now paid.now.rises.now }
    requires rounds { AreSmall paid.now.rounds.now }
    requires fleet { fleet < fleets_in tables.now }
    requires station { station < stations_in tables.now }
    requires stations { length paid.now.rounds.now.moments ≡ stations_in tables.now }
    ensures { IfOk result (λ row. row.items ≡ list_below (paid_price paid.now.before paid.now.rises.now paid.now.rounds.now fleet station) (period_of tables.now)) }
{
    let mut row = Vec::new(alloc);
    for minute in 0..tables.period() {
        row.push(paid_price(tables, paid, fleet, station, minute))?;
    }
    Ok(row)
}

// Whether a price of a row is beyond the limit.
#[tactic(auto, using(crate::proofs::PaidRows::none_beyond, crate::proofs::PaidRows::not_beyond, crate::proofs::PaidRows::one_beyond))]
fn has_beyond(row: &[i128]) -> bool
    ensures { result ≡ beyond_at (λ m. slice_index_or row.now m (pos 0)) (length row.now) }
{
    for minute in 0..row.len() {
        if is_beyond(&row[minute]) {
            return true;
        }
    }
    false
}

// Whether a number is greater in size than a price may be.
fn is_beyond(price: &i128) -> bool
    ensures { result ≡ is_beyond price.now }
{
    *price < -MAX_PRICE || MAX_PRICE < *price
}

// The price of a fleet at a station at a minute.
fn paid_price(tables: &Tables, paid: &Paid<'_>, fleet: u32, station: u32, minute: u16) -> i128
    requires within { AreWithin tables.now paid.now.before }
    requires rises { AreRises tables.now paid.now.rises.now }
    requires rounds { AreSmall paid.now.rounds.now }
    requires fleet { fleet < fleets_in tables.now }
    requires station { station < stations_in tables.now }
    requires stations { length paid.now.rounds.now.moments ≡ stations_in tables.now }
    requires minute { minute < period_of tables.now }
    ensures { result ≡ paid_price paid.now.before paid.now.rises.now paid.now.rounds.now fleet station minute }
{
    price(tables, &paid.before, fleet, station, minute)
        + shift_by(tables, paid.rises, fleet, station, minute)
        + price_grown(paid.rounds, station, minute)
}

// The rent of a fleet.
fn paid_rent(tables: &Tables, paid: &Paid<'_>, fleet: u32) -> i128
    requires within { AreWithin tables.now paid.now.before }
    requires rounds { AreSmall paid.now.rounds.now }
    requires fleet { fleet < fleets_in tables.now }
    ensures { result ≡ paid_rent paid.now.before paid.now.rounds.now fleet }
{
    rent(tables, &paid.before, fleet) + rent_grown(paid.rounds)
}

// The rents of all fleets.
fn rents(alloc: Global, tables: &Tables, paid: &Paid<'_>) -> Result<Vec<i128>, OutOfMemory>
    requires within { AreWithin tables.now paid.now.before }
    requires rounds { AreSmall paid.now.rounds.now }
    ensures { IfOk result (λ rents. rents.items ≡ list_below (paid_rent paid.now.before paid.now.rounds.now) (fleets_in tables.now)) }
{
    let mut rents = Vec::new(alloc);
    for fleet in 0..tables.fleet_count() {
        rents.push(paid_rent(tables, paid, fleet))?;
    }
    Ok(rents)
}
