//! The rotation of a fleet.
ghost use Rattle.std.specs.Prelude.{◌≡◌, ◌<◌, ◌≤◌, ◌==◌, ◌&&◌, nat_le, ℕ, IfOk};
ghost use Rattle.fleet_model.specs.Legal.{IsAssignment};
ghost use Rattle.fleet_model.specs.Schedule.{fleets_in};
ghost use Rattle.lines_of_flying.specs.ground_turns.Maps.{IsHeldByMap};
ghost use Rattle.lines_of_flying.specs.cycle_join.Joins.{FliesSome};
ghost use Rattle.euler_rotation.specs.Answers.{AreEnough, IsRotation, IsRotationComplete};
ghost use Rattle.euler_rotation.specs.Asked.{IsAsked, TellClean};
ghost use Rattle.euler_rotation.specs.Searches.{IsFoundUnder, IsTourTold, MayTell};
ghost use Rattle.euler_rotation.specs.Tours.{IsTourWith, nights_used};

use crate::asked::Asked;
use crate::clean::{CleanTurns, clean_turns};
use crate::field::field_of;
use crate::improving::improved;
use crate::kept::is_kept_tour;
use crate::rotation::Rotation;
use crate::search::{Found, search};
use crate::starting::begun;
use crate::supply::{first_leg, nights_maintained, nights_used};
use entries::{Entries, NoMemory};
use fleet_model::{Assignment, Connection, Tables};
use lines_of_flying::cycle_join::{Joined, join};
use std::alloc::Global;

/// What becomes of the rotation of a fleet whose tour is to hold given pairs: a tour of all its legs in which any so many
/// days one after another have a night for maintenance, or the cause why there is none. At most so many prefixes of such
/// tours are visited.
///
/// The cycles of a fitting map are joined to one tour (Gopalan and Talluri 1998). Where that isn't kept, parts of it change
/// places, and at last all beginnings of kept tours are visited in a fixed order.
pub fn rotate(
    alloc: Global,
    tables: &Tables,
    plan: &Assignment,
    fleet: u32,
    pairs: &[Connection],
    days: u32,
    visits: u64,
) -> Result<Rotation, NoMemory>
    requires plan { IsAssignment tables.now plan.now }
    requires fleet { fleet < fleets_in tables.now }
    requires held { IsHeldByMap tables.now plan.now fleet pairs.now }
    requires some_days { 0 < days }
    requires few_days { days ≤ 30 }
    ensures rotation { IfOk result (IsRotation tables.now plan.now fleet pairs.now days visits) }
    ensures complete { IfOk result (IsRotationComplete tables.now plan.now fleet pairs.now days visits) }
{
    let asked = Asked {
        tables,
        plan,
        fleet,
        pairs,
        days,
    };
    rotation_of(alloc, &asked, visits)
}

// The rotation that is asked for.
fn rotation_of(alloc: Global, asked: &Asked<'_>, visits: u64) -> Result<Rotation, NoMemory>
    requires asked { IsAsked asked.now }
    requires held { IsHeldByMap asked.now.tables.now asked.now.plan.now asked.now.fleet asked.now.pairs.now }
    ensures { IfOk result (IsRotation asked.now.tables.now asked.now.plan.now asked.now.fleet asked.now.pairs.now asked.now.days visits) }
{
    match first_leg(asked) {
        None => Ok(Rotation::Unused),
        Some(_leg) => flown(alloc, asked, visits),
    }
}

// The rotation of a fleet that has a leg.
fn flown(alloc: Global, asked: &Asked<'_>, visits: u64) -> Result<Rotation, NoMemory>
    requires asked { IsAsked asked.now }
    requires held { IsHeldByMap asked.now.tables.now asked.now.plan.now asked.now.fleet asked.now.pairs.now }
    requires flies { FliesSome asked.now.tables.now asked.now.plan.now asked.now.fleet }
    ensures { IfOk result (IsRotation asked.now.tables.now asked.now.plan.now asked.now.fleet asked.now.pairs.now asked.now.days visits) }
{
    let have = nights_maintained(asked);
    let used = nights_used(asked);
    if have * asked.days < used {
        return Ok(Rotation::TooFewNights { have, used });
    }
    match join(alloc, asked.tables, asked.plan, asked.fleet, asked.pairs)? {
        Joined::Tour(legs) => settled(alloc, asked, legs, used, visits),
        Joined::Apart(legs) => Ok(Rotation::Apart { legs }),
    }
}

// The rotation where some tour holds the pairs: this one.
fn settled(
    alloc: Global,
    asked: &Asked<'_>,
    joined: Entries<u32>,
    used: u32,
    visits: u64,
) -> Result<Rotation, NoMemory>
    requires asked { IsAsked asked.now }
    requires nights { AreEnough asked.now.tables.now asked.now.plan.now asked.now.fleet asked.now.days }
    requires used { used ≡ nights_used asked.now.tables.now asked.now.plan.now asked.now.fleet }
    requires tour { IsTourWith asked.now.tables.now asked.now.plan.now asked.now.fleet asked.now.pairs.now joined }
    ensures { IfOk result (IsRotation asked.now.tables.now asked.now.plan.now asked.now.fleet asked.now.pairs.now asked.now.days visits) }
{
    match told(alloc, asked, joined.as_slice(), used, visits)? {
        Found::Tour(legs) => Ok(Rotation::Tour(legs)),
        Found::Nothing => Ok(Rotation::None),
        Found::Spent(prefix) => Ok(Rotation::Spent {
            order: joined,
            prefix,
        }),
    }
}

// The kept tour that is told, or why none is.
fn told(
    alloc: Global,
    asked: &Asked<'_>,
    tour: &[u32],
    used: u32,
    visits: u64,
) -> Result<Found, NoMemory>
    requires { MayTell asked.now tour.now used }
    ensures { IfOk result (IsTourTold asked.now tour.now visits) }
{
    let clean = clean_turns(alloc, asked)?;
    told_by(alloc, &clean, tour, used, visits)
}

// The same by the fleet's clean turns.
fn told_by(
    alloc: Global,
    clean: &CleanTurns<'_>,
    tour: &[u32],
    used: u32,
    visits: u64,
) -> Result<Found, NoMemory>
    requires clean { TellClean clean.now }
    requires told { MayTell clean.now.asked.now tour.now used }
    ensures { IfOk result (IsTourTold clean.now.asked.now tour.now visits) }
{
    if is_kept_tour(clean, tour) {
        return Ok(Found::Tour(begun(alloc, clean.asked, tour)?));
    }
    if are_alike(clean.asked, used) {
        return Ok(Found::Nothing);
    }
    match found(alloc, clean, tour, visits)? {
        Found::Tour(legs) => Ok(Found::Tour(begun(alloc, clean.asked, legs.as_slice())?)),
        Found::Nothing => Ok(Found::Nothing),
        Found::Spent(prefix) => Ok(Found::Spent(prefix)),
    }
}

// Whether all tours are kept or none is: no night is short, and there are as many days as nights.
fn are_alike(asked: &Asked<'_>, used: u32) -> bool
    ensures { result ≡ ((asked.now.tables.now.settings.least_night == 0) && nat_le used asked.now.days) }
{
    asked.tables.settings.least_night == 0 && asked.days >= used
}

// What is found where a tour isn't kept: the tour improved, or what a search under its order finds.
fn found(
    alloc: Global,
    clean: &CleanTurns<'_>,
    tour: &[u32],
    visits: u64,
) -> Result<Found, NoMemory>
    requires clean { TellClean clean.now }
    requires tour { IsTourWith clean.now.asked.now.tables.now clean.now.asked.now.plan.now clean.now.asked.now.fleet clean.now.asked.now.pairs.now tour.now }
    ensures { IfOk result (IsFoundUnder clean.now.asked.now.tables.now clean.now.asked.now.plan.now clean.now.asked.now.fleet
        clean.now.asked.now.pairs.now clean.now.asked.now.days tour.now visits) }
{
    let legs = improved(alloc, clean, tour)?;
    if is_kept_tour(clean, &legs) {
        return Ok(Found::Tour(Entries::from_vec(legs)));
    }
    searched(alloc, clean, tour, visits)
}

// What a search under the order of a tour finds.
fn searched(
    alloc: Global,
    clean: &CleanTurns<'_>,
    tour: &[u32],
    visits: u64,
) -> Result<Found, NoMemory>
    requires clean { TellClean clean.now }
    requires tour { IsTourWith clean.now.asked.now.tables.now clean.now.asked.now.plan.now clean.now.asked.now.fleet clean.now.asked.now.pairs.now tour.now }
    ensures { IfOk result (IsFoundUnder clean.now.asked.now.tables.now clean.now.asked.now.plan.now clean.now.asked.now.fleet
        clean.now.asked.now.pairs.now clean.now.asked.now.days tour.now visits) }
{
    let field = field_of(alloc, clean, tour)?;
    search(alloc, &field, visits)
}
