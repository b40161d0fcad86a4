//! Prices by the nodes of an outline, paid back: rises over arcs that went go to their moments.
ghost use Rattle.std.specs.Prelude.{◌≡◌, ◌<◌, ◌++◌, length, None, IfOk, OnOk, MatchResult};
ghost use Rattle.fleet_model.specs.Kept.{Domains};
ghost use Rattle.lp_rows.specs.Outline.{IsOutline};
ghost use Rattle.simplex_frac.specs.dual_lift.TooLarge.{IsLiftError};
ghost use Rattle.dual_bound.specs.Prices.{AreWithin};
ghost use Rattle.price_lift.specs.ArcRises.{outline_rises, rise_of_number};
ghost use Rattle.price_lift.specs.PaidBack.{lift_error, paid_back, payback_excess};
ghost use Rattle.price_lift.specs.Wanted.{handed_on};

use dual_bound::{PriceFinder, Prices};
use entries::NoMemory;
use fleet_model::Tables;
use island_prices::{Arc, PaybackError, Rise, least_idle, pay_back, push_rise};
use lp_rows::Outline;
use simplex_frac::dual_lift::LiftError;
use simplex_frac::dual_lift::error::PAYBACK_STEP;
use std::alloc::Global;

/// The prices after each rise over an arc that went is paid back, where rents and prices are within their limits then. They
/// are given by the nodes of the outline.
pub(crate) fn paid_back(
    alloc: Global,
    tables: &Tables,
    outline: &Outline,
    prices: Prices,
) -> Result<Prices, LiftError>
    requires outline { (keeps : Domains) × IsOutline tables.now keeps outline.now }
    requires within { AreWithin tables.now prices }
    ensures { MatchResult result
        (λ paid. (payback_excess tables.now prices (outline_rises tables.now outline.now prices) ≡ None) × (paid ≡ paid_back tables.now prices (outline_rises tables.now outline.now prices)))
        (IsLiftError (payback_excess tables.now prices (outline_rises tables.now outline.now prices))) }
{
    let rises = arc_rises(alloc, tables, outline, &prices)?;
    if rises.is_empty() {
        return Ok(prices);
    }
    let least = least_idle(alloc, tables)?;
    handed_on(pay_back(alloc, tables, &prices, &rises, least))
}

// What paying back comes to, as a lift tells it.
fn handed_on(paid: Result<Prices, PaybackError>) -> Result<Prices, LiftError>
    ensures { result ≡ handed_on paid }
{
    match paid {
        Ok(prices) => Ok(prices),
        Err(error) => Err(lift_error(error)),
    }
}

// Why a lift is refused where prices are not paid back.
fn lift_error(error: PaybackError) -> LiftError
    ensures { result ≡ lift_error error }
{
    match error {
        PaybackError::Beyond { fleet } => LiftError::TooLarge {
            step: PAYBACK_STEP,
            at: fleet.into(),
        },
        PaybackError::NoMemory => LiftError::NoMemory,
    }
}

// The rises over all arcs that went, by the numbers of their nodes.
#[tactic(auto, unfolding(crate::specs::ArcRises::outline_rises))]
fn arc_rises(
    alloc: Global,
    tables: &Tables,
    outline: &Outline,
    prices: &Prices,
) -> Result<Vec<Rise>, NoMemory>
    requires outline { (keeps : Domains) × IsOutline tables.now keeps outline.now }
    requires within { AreWithin tables.now prices.now }
    ensures { IfOk result (λ rises. rises.items ≡ outline_rises tables.now outline.now prices.now) }
{
    let finder = PriceFinder::new(prices);
    let mut rises = Vec::new(alloc);
    for number in 0..outline.nodes.len() {
        push_number(&mut rises, tables, outline, &finder, number)?;
    }
    Ok(rises)
}

// Puts the rise over the arc of a node behind those so far, where it went and the price rises.
fn push_number(
    rises: &mut Vec<Rise>,
    tables: &Tables,
    outline: &Outline,
    prices: &PriceFinder<'_>,
    number: usize,
) -> Result<(), NoMemory>
    requires outline { (keeps : Domains) × IsOutline tables.now keeps outline.now }
    requires within { AreWithin tables.now prices.now }
    requires number { number < length outline.now.nodes }
    ensures { OnOk result (rises.new.items ≡ rises.old.items ++ rise_of_number tables.now outline.now prices.now number) }
{
    let node = outline.nodes.as_slice()[number];
    let arc = Arc {
        fleet: node.fleet,
        station: node.station,
        starts: outline.network.starts(tables, node.fleet, node.station),
        place: node.place,
    };
    push_rise(
        rises,
        tables,
        prices,
        &arc,
        outline.moments.as_slice()[number],
    )
}
