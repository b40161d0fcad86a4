//! The tables in which each leg departs at the time that a plan chose.
ghost use Rattle.std.specs.Prelude.{◌≡◌, ◌<◌, ◌↔◌, All, IfOk, IsTrue, map};
ghost use Rattle.fleet_model.specs.Counts.{pair_at};
ghost use Rattle.fleet_model.specs.Legal.{IsAssignment};
ghost use Rattle.fleet_model.specs.Limits.{IsCostUpTo, IsPairCost};
ghost use Rattle.fleet_model.specs.Schedule.{IsPair, fleets_in, legs_in};
ghost use Rattle.sched_read.specs.retime_windows.Settled.{AreSettled, CanSettle, IsSettled, settled_cost, settled_leg, settled_plan, time_of, leg_once};
ghost use Rattle.sums.specs.Places.{list_below};

use entries::{Entries, NoMemory};
use fleet_model::limits::MAX_COST;
use fleet_model::{
    Assignment, Costs, Fleet, Leg, Pair, PairCost, Shift, Shifts, Station, Tables, departures_of,
};
use std::alloc::Global;

/// Tables in which each leg has one time, and a plan on them.
#[derive(Drop)]
pub struct Settled {
    pub tables: Tables,
    pub plan: Assignment,
}

/// The tables in which each leg departs at the time that a plan chose, at costs that this time has raised, and the plan of the
/// same fleets on them. A leg that is left out stays so, at its own time.
///
/// # Errors
/// `NoMemory` where there is none left for the tables.
pub fn settle(alloc: Global, tables: &Tables, plan: &Assignment) -> Result<Settled, NoMemory>
    requires assignment { IsAssignment tables.now plan.now }
    requires costs { CanSettle tables.now }
    ensures { IfOk result (λ settled. IsSettled tables.now plan.now settled.tables settled.plan) }
{
    Ok(Settled {
        tables: settled_tables(alloc, tables, plan)?,
        plan: settled_plan(tables, plan),
    })
}

/// Whether a plan can be settled on these tables: where legs have windows, costs are such as a table names. It is so after
/// reading.
pub fn can_settle(tables: &Tables) -> bool
    ensures { IsTrue result ↔ CanSettle tables.now }
{
    !tables.windows || are_named(tables.costs.as_slice())
}

// Whether costs are such as a table names.
fn are_named(costs: &[PairCost]) -> bool
    ensures { IsTrue result ↔ All (λ entry. IsCostUpTo 1 entry.cost) costs.now }
{
    costs.iter().all(is_named)
}

// Whether a cost is one that a table names.
fn is_named(entry: &PairCost) -> bool
    ensures { IsTrue result ↔ IsCostUpTo 1 entry.now.cost }
{
    -MAX_COST <= entry.cost && entry.cost <= MAX_COST
}

// The tables of the times that a plan chose.
fn settled_tables(alloc: Global, tables: &Tables, plan: &Assignment) -> Result<Tables, NoMemory>
    requires assignment { IsAssignment tables.now plan.now }
    requires costs { CanSettle tables.now }
    ensures { IfOk result (AreSettled tables.now plan.now) }
{
    let stations = copied_stations(alloc, tables.stations.as_slice())?;
    let fleets = copied_fleets(alloc, tables.fleets.as_slice())?;
    let legs = settled_legs(alloc, tables, plan)?;
    let costs = settled_costs(alloc, tables, plan)?;
    let throughs = Vec::from_slice(alloc, tables.throughs.as_slice())?;
    let departures = departures_of(alloc, &legs)?;
    Ok(Tables {
        stations: Entries::from_vec(stations),
        fleets: Entries::from_vec(fleets),
        legs: Entries::from_vec(legs),
        costs: Costs::from_vec(costs),
        throughs: Entries::from_vec(throughs),
        settings: tables.settings,
        departures: Entries::from_vec(departures),
        windows: false,
        optional: tables.optional,
    })
}

// The legs, each at the time that a plan chose.
fn settled_legs(alloc: Global, tables: &Tables, plan: &Assignment) -> Result<Vec<Leg>, NoMemory>
    requires { IsAssignment tables.now plan.now }
    ensures { IfOk result (λ legs. legs.items ≡ list_below (settled_leg tables.now plan.now) (legs_in tables.now)) }
{
    let mut legs = Vec::new(alloc);
    for leg in 0..tables.leg_count() {
        legs.push(leg_once(
            alloc,
            tables.leg(leg),
            time_of(tables, pair_of(tables, plan, leg)).dep,
        )?)?;
    }
    Ok(legs)
}

// A leg that departs at this minute and at no other.
fn leg_once(alloc: Global, leg: &Leg, dep: u16) -> Result<Leg, NoMemory>
    ensures { IfOk result (λ once. once ≡ leg_once leg.now dep) }
{
    Ok(Leg {
        flight: copied(alloc, &leg.flight)?,
        from: leg.from,
        dep,
        to: leg.to,
        block: leg.block,
        shifts: Shifts::own(dep),
        skip: leg.skip,
    })
}

// The costs, each raised by what the time of its leg costs.
fn settled_costs(
    alloc: Global,
    tables: &Tables,
    plan: &Assignment,
) -> Result<Vec<PairCost>, NoMemory>
    requires { IsAssignment tables.now plan.now }
    ensures { IfOk result (λ costs. costs.items ≡ map (settled_cost tables.now plan.now) tables.now.costs) }
{
    let mut costs = Vec::new(alloc);
    for entry in tables.costs.as_slice() {
        costs.push(settled_cost(tables, plan, entry))?;
    }
    Ok(costs)
}

// A cost, raised by what the time of its leg costs.
fn settled_cost(tables: &Tables, plan: &Assignment, entry: &PairCost) -> PairCost
    requires assignment { IsAssignment tables.now plan.now }
    requires entry { IsPairCost (legs_in tables.now) (fleets_in tables.now) entry.now }
    ensures { result ≡ settled_cost tables.now plan.now entry.now }
{
    PairCost {
        leg: entry.leg,
        fleet: entry.fleet,
        cost: entry.cost + extra_of(tables, plan, entry.leg),
    }
}

// What the time that a plan chose of a leg costs.
fn extra_of(tables: &Tables, plan: &Assignment, leg: u32) -> i128
    requires assignment { IsAssignment tables.now plan.now }
    requires leg { leg < legs_in tables.now }
    ensures value { result ≡ (time_of tables.now (pair_at plan.now leg)).extra }
    ensures small { IsCostUpTo 1 result }
{
    time_of(tables, pair_of(tables, plan, leg)).extra
}

// The pair that a plan has of a leg.
fn pair_of(tables: &Tables, plan: &Assignment, leg: u32) -> Pair
    requires assignment { IsAssignment tables.now plan.now }
    requires leg { leg < legs_in tables.now }
    ensures value { result ≡ pair_at plan.now leg }
    ensures known { IsPair tables.now result }
{
    Pair {
        leg,
        choice: plan.choice(leg),
    }
}

// The time of a pair: that at which it is flown, and where it leaves its leg out the leg's own.
fn time_of(tables: &Tables, pair: Pair) -> Shift
    requires { IsPair tables.now pair }
    ensures value { result ≡ time_of tables.now pair }
    ensures small { IsCostUpTo 1 result.extra }
{
    if tables.fleet_by(pair) < tables.fleet_count() {
        *tables.shift_by(pair)
    } else {
        Shift::own(tables.leg(pair.leg).dep)
    }
}

// The same fleets, and the same legs left out.
fn settled_plan(tables: &Tables, plan: &Assignment) -> Assignment
    requires { IsAssignment tables.now plan.now }
    ensures { result ≡ settled_plan tables.now plan.now }
{
    let mut settled = Assignment::empty();
    for leg in 0..tables.leg_count() {
        settled.push(tables.fleet_by(pair_of(tables, plan, leg)));
    }
    settled
}

// The same stations once more.
fn copied_stations(alloc: Global, stations: &[Station]) -> Result<Vec<Station>, NoMemory>
    ensures { IfOk result (λ copied. copied.items ≡ stations.now) }
{
    let mut copied_stations = Vec::new(alloc);
    for station in stations {
        copied_stations.push(Station {
            code: copied(alloc, &station.code)?,
            extra: station.extra,
            maintenance: station.maintenance,
            parking: station.parking,
        })?;
    }
    Ok(copied_stations)
}

// The same fleets once more.
fn copied_fleets(alloc: Global, fleets: &[Fleet]) -> Result<Vec<Fleet>, NoMemory>
    ensures { IfOk result (λ copied. copied.items ≡ fleets.now) }
{
    let mut copied_fleets = Vec::new(alloc);
    for fleet in fleets {
        copied_fleets.push(Fleet {
            name: copied(alloc, &fleet.name)?,
            aircraft: fleet.aircraft,
            turn: fleet.turn,
        })?;
    }
    Ok(copied_fleets)
}

// The same text once more.
fn copied(alloc: Global, text: &Entries<u8>) -> Result<Entries<u8>, NoMemory>
    ensures { IfOk result (λ copied. copied ≡ text.now) }
{
    Ok(Entries::from_vec(Vec::from_slice(alloc, text.as_slice())?))
}
