ghost use Rattle.std.specs.Prelude.{◌≡◌, ◌<◌, ◌≤◌, ◌&&◌, length, IfOk, []};
ghost use Rattle.fleet_model.specs.Legal.{IsLegal};
ghost use Rattle.fleet_model.specs.Schedule.{fleets_in};
ghost use Rattle.fleet_model.specs.Plain.{IsPlain};
ghost use Rattle.lines_of_flying.specs.ground_turns.Maps.{IsHeldByMap};
ghost use Rattle.euler_rotation.specs.FleetRotations.{AreFlown, AreKept, AreRotations, rotation_of};
ghost use Rattle.plan_rotations.specs.Rotations.{ArePlanRotations, AreWorthMost, IsMadeIf, IsMadeRotation, IsRotationWith, are_some, is_given_up};

use crate::through_flights::choose;
use entries::{Entries, NoMemory};
use euler_rotation::{FleetRotation, Rotation, rotate};
use fleet_model::{Assignment, Connection, Tables};
use plan_judge::used;
use std::alloc::Global;

/// The rotation of each fleet of a legal plan on plain tables, in the order of the table: its through pairs of greatest value, what
/// becomes of the rotation with them and, where no tour or no kept one holds them or the search is given up, what becomes
/// of the one without. Each tour comes to maintenance at least every `days` nights; a search visits at most so many
/// beginnings of tours.
pub fn rotations(
    alloc: Global,
    tables: &Tables,
    plan: &Assignment,
    days: u32,
    visits: u32,
) -> Result<Entries<FleetRotation>, NoMemory>
    requires plain { IsPlain tables.now }
    requires plan { IsLegal tables.now plan.now }
    requires some_days { 0 < days }
    requires few_days { days ≤ 30 }
    ensures made { IfOk result (ArePlanRotations tables.now plan.now days visits) }
    ensures known { IfOk result (AreRotations tables.now) }
    ensures flown { IfOk result (AreFlown tables.now plan.now) }
    ensures kept { IfOk result (AreKept tables.now) }
{
    Ok(of_fleets(alloc, tables, plan, days, visits)?)
}

/// The rotation of each fleet, in the order of the table.
fn of_fleets(
    alloc: Global,
    tables: &Tables,
    plan: &Assignment,
    days: u32,
    visits: u32,
) -> Result<Entries<FleetRotation>, NoMemory>
    requires plain { IsPlain tables.now }
    requires plan { IsLegal tables.now plan.now }
    requires some_days { 0 < days }
    requires few_days { days ≤ 30 }
    ensures { IfOk result (ArePlanRotations tables.now plan.now days visits) }
{
    let mut all = Vec::new(alloc);
    for fleet in 0..tables.fleet_count() {
        all.push(rotation_of(alloc, tables, plan, fleet, days, visits)?)?;
    }
    Ok(Entries::from_vec(all))
}

/// The rotation of a fleet.
fn rotation_of(
    alloc: Global,
    tables: &Tables,
    plan: &Assignment,
    fleet: u32,
    days: u32,
    visits: u32,
) -> Result<FleetRotation, NoMemory>
    requires plain { IsPlain tables.now }
    requires plan { IsLegal tables.now plan.now }
    requires fleet { fleet < fleets_in tables.now }
    requires some_days { 0 < days }
    requires few_days { days ≤ 30 }
    ensures { IfOk result (IsMadeRotation tables.now plan.now fleet days visits) }
{
    let pairs = pairs_of(alloc, tables, plan, fleet)?;
    let first = rotated(alloc, tables, plan, fleet, pairs.as_slice(), days, visits)?;
    let wanted = wants_second(&pairs, &first);
    let second = second_of(alloc, tables, plan, fleet, wanted, days, visits)?;
    Ok(FleetRotation {
        pairs,
        first,
        second,
        used: used(tables, plan, fleet),
    })
}

/// Whether through pairs stand in the way of a rotation, so that one without them is made too.
fn wants_second(pairs: &Entries<Connection>, first: &Rotation) -> bool
    ensures { result ≡ (are_some pairs.now && is_given_up first.now) }
{
    !pairs.is_empty() && is_given_up(first)
}

/// What becomes of the rotation without pairs, where it is wanted.
fn second_of(
    alloc: Global,
    tables: &Tables,
    plan: &Assignment,
    fleet: u32,
    wanted: bool,
    days: u32,
    visits: u32,
) -> Result<Option<Rotation>, NoMemory>
    requires plain { IsPlain tables.now }
    requires plan { IsLegal tables.now plan.now }
    requires fleet { fleet < fleets_in tables.now }
    requires some_days { 0 < days }
    requires few_days { days ≤ 30 }
    ensures { IfOk result (IsMadeIf wanted tables.now plan.now fleet days visits) }
{
    if wanted {
        Ok(Some(rotated_freely(alloc, tables, plan, fleet, days, visits)?))
    } else {
        Ok(None)
    }
}

/// The through pairs of a fleet that are worth most.
fn pairs_of(
    alloc: Global,
    tables: &Tables,
    plan: &Assignment,
    fleet: u32,
) -> Result<Entries<Connection>, NoMemory>
    requires plain { IsPlain tables.now }
    requires plan { IsLegal tables.now plan.now }
    requires fleet { fleet < fleets_in tables.now }
    ensures { IfOk result (AreWorthMost tables.now plan.now fleet) }
{
    Ok(choose(alloc, tables, plan, fleet)?.pairs)
}

/// What becomes of the rotation with given pairs.
fn rotated(
    alloc: Global,
    tables: &Tables,
    plan: &Assignment,
    fleet: u32,
    pairs: &[Connection],
    days: u32,
    visits: u32,
) -> Result<Rotation, NoMemory>
    requires plan { IsLegal tables.now plan.now }
    requires fleet { fleet < fleets_in tables.now }
    requires held { IsHeldByMap tables.now plan.now fleet pairs.now }
    requires some_days { 0 < days }
    requires few_days { days ≤ 30 }
    ensures { IfOk result (IsRotationWith tables.now plan.now fleet pairs.now days visits) }
{
    Ok(rotate(alloc, tables, plan, fleet, pairs, days, u64::from(visits))?)
}

/// What becomes of it without pairs.
#[tactic(auto, using(crate::proofs::Best::held_without))]
fn rotated_freely(
    alloc: Global,
    tables: &Tables,
    plan: &Assignment,
    fleet: u32,
    days: u32,
    visits: u32,
) -> Result<Rotation, NoMemory>
    requires plain { IsPlain tables.now }
    requires plan { IsLegal tables.now plan.now }
    requires fleet { fleet < fleets_in tables.now }
    requires some_days { 0 < days }
    requires few_days { days ≤ 30 }
    ensures { IfOk result (IsRotationWith tables.now plan.now fleet [] days visits) }
{
    Ok(rotated(alloc, tables, plan, fleet, &[], days, visits)?)
}

/// Whether a rotation is given up, so that another without its pairs may do.
fn is_given_up(rotation: &Rotation) -> bool
    ensures { result ≡ is_given_up rotation.now }
{
    match rotation {
        Rotation::Unused | Rotation::TooFewNights { .. } | Rotation::Tour(_) => false,
        Rotation::Apart { .. } | Rotation::None | Rotation::Spent { .. } => true,
    }
}
