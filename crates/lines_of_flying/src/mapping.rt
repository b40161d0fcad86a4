ghost use Rattle.std.specs.Prelude.{◌≡◌, ◌<◌, IfOk};
ghost use Rattle.fleet_model.specs.Legal.{IsAssignment};
ghost use Rattle.fleet_model.specs.Schedule.{fleets_in};
ghost use Rattle.lines_of_flying.specs.ground_turns.FirstOut.{AreFirstOut};
ghost use Rattle.lines_of_flying.specs.ground_turns.Maps.{Holds, IsFitting, IsHeldByMap};
ghost use Rattle.lines_of_flying.specs.Grounds.{ArePlaces, IsGround};
ghost use Rattle.lines_of_flying.specs.Successors.{AreSuccessors, RiseByArriving};

use crate::following::follower;
use crate::ground::{Ground, ground_of};
use crate::places::{Places, places_of};
use entries::{Entries, NoMemory};
use fleet_model::{Assignment, Connection, Tables};
use std::alloc::Global;

/// A fitting map of a fleet that holds given pairs: for each of its legs, by number, the one that its aircraft flies
/// next. Beside the pairs, aircraft depart from each station in the order in which they became ready there, at a tie by
/// leg number.
pub fn successors(
    alloc: Global,
    tables: &Tables,
    plan: &Assignment,
    fleet: u32,
    pairs: &[Connection],
) -> Result<Entries<Connection>, NoMemory>
    requires plan { IsAssignment tables.now plan.now }
    requires fleet { fleet < fleets_in tables.now }
    requires held { IsHeldByMap tables.now plan.now fleet pairs.now }
    ensures fitting { IfOk result (λ turns. IsFitting tables.now plan.now fleet turns) }
    ensures holds { IfOk result (λ turns. Holds turns pairs.now) }
    ensures first_out { IfOk result (λ turns. AreFirstOut tables.now plan.now fleet pairs.now turns) }
    ensures order { IfOk result RiseByArriving }
{
    let ground = ground_of(alloc, tables, plan, fleet, pairs)?;
    let places = places_of(alloc, &ground)?;
    let turns = turns_of(alloc, &ground, &places)?;
    Ok(Entries::from_vec(turns))
}

// The turns of the fleet's legs, each to the leg that follows.
fn turns_of(
    alloc: Global,
    ground: &Ground<'_>,
    places: &Places,
) -> Result<Vec<Connection>, NoMemory>
    requires ground { IsGround ground.now }
    requires places { ArePlaces ground.now places.now }
    requires held { IsHeldByMap ground.now.tables.now ground.now.plan.now ground.now.fleet ground.now.pairs.now }
    ensures { IfOk result (λ turns. AreSuccessors ground.now.tables.now ground.now.plan.now ground.now.fleet ground.now.pairs.now turns.items) }
{
    let mut turns = Vec::new(alloc);
    for leg in 0..ground.tables.leg_count() {
        if ground.plan.choice(leg) == ground.fleet {
            turns.push(Connection {
                arriving: leg,
                departing: follower(ground, places, leg),
            })?;
        }
    }
    Ok(turns)
}
