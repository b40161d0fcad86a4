//! The prices by which a rule removes a pair.
ghost use Rattle.std.specs.Prelude.{◌≡◌, ◌<◌, [], ◌∷◌, IfOk, ℤ, pos};
ghost use Rattle.sums.specs.Places.{list_below};
ghost use Rattle.fleet_model.specs.Schedule.{IsPair, fleet_by, fleets_in, period_of, stations_in};
ghost use Rattle.presolve.specs.Reasons.{IsReason, reason_rent, reason_steps, steps_until};

use crate::rule::Rule;
use dual_bound::{PriceStep, Prices};
use entries::{Entries, NoMemory};
use fleet_model::{Pair, Tables};
use std::alloc::Global;

/// The prices by which a rule removes a pair.
pub(crate) fn reason(
    alloc: Global,
    tables: &Tables,
    rule: Rule,
    pair: Pair,
) -> Result<Prices, NoMemory>
    requires pair { IsPair tables.now pair }
    requires flown { fleet_by tables.now pair < fleets_in tables.now }
    ensures { IfOk result (IsReason tables.now rule pair) }
{
    let steps = steps(alloc, tables, rule, pair)?;
    let rents = rents(alloc, tables, rule, tables.fleet_by(pair))?;
    Ok(Prices {
        scale: 1,
        rents: Entries::from_vec(rents),
        steps: Entries::from_vec(steps),
        charges: Entries::from_vec(Vec::new(alloc)),
    })
}

// The steps of the prices.
fn steps(alloc: Global, tables: &Tables, rule: Rule, pair: Pair) -> Result<Vec<PriceStep>, NoMemory>
    requires { IsPair tables.now pair }
    ensures { IfOk result (λ steps. steps.items ≡ reason_steps tables.now rule pair) }
{
    let leg = tables.leg(pair.leg);
    let fleet = tables.fleet_by(pair);
    let minute = 0;
    match rule {
        Rule::NoArrival => Ok(vec![in alloc;
            PriceStep {
                fleet,
                station: leg.from,
                minute,
                value: 1
            },
        ]?),
        Rule::NoDeparture => Ok(vec![in alloc;
            PriceStep {
                fleet,
                station: leg.to,
                minute,
                value: -1
            },
        ]?),
        Rule::TooFewAircraft => steps_until(alloc, tables, fleet, tables.departure(pair)),
    }
}

// The steps of a price of a fleet that is 1 until a minute, at each station.
#[tactic(auto, unfolding(crate::specs::Reasons::steps_until))]
fn steps_until(
    alloc: Global,
    tables: &Tables,
    fleet: u32,
    minute: u16,
) -> Result<Vec<PriceStep>, NoMemory>
    requires { minute < period_of tables.now }
    ensures { IfOk result (λ steps. steps.items ≡ steps_until tables.now fleet minute (stations_in tables.now)) }
{
    let mut steps = Vec::new(alloc);
    for station in 0..tables.station_count() {
        let first = PriceStep {
            fleet,
            station,
            minute: 0,
            value: 1,
        };
        steps.push(first)?;
        if minute < tables.period() - 1 {
            steps.push(PriceStep {
                minute: minute + 1,
                value: 0,
                ..first
            })?;
        }
    }
    Ok(steps)
}

// The rent of each fleet's aircraft.
fn rents(alloc: Global, tables: &Tables, rule: Rule, own: u32) -> Result<Vec<i128>, NoMemory>
    ensures { IfOk result (λ rents. rents.items ≡ list_below (reason_rent rule own) (fleets_in tables.now)) }
{
    let mut rents = Vec::new(alloc);
    for fleet in 0..tables.fleet_count() {
        rents.push(rent(rule, own, fleet))?;
    }
    Ok(rents)
}

// The rent of a fleet's aircraft: 1 of the pair's own fleet where it has too few.
fn rent(rule: Rule, own: u32, fleet: u32) -> i128
    ensures { result ≡ reason_rent rule own fleet }
{
    match rule {
        Rule::TooFewAircraft if fleet == own => 1,
        _ => 0,
    }
}
