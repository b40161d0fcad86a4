ghost use Rattle.std.specs.Prelude.{◌<◌, IfOk};
ghost use Rattle.fleet_model.specs.Legal.{IsAssignment};
ghost use Rattle.fleet_model.specs.Schedule.{fleets_in};
ghost use Rattle.lines_of_flying.specs.ground_turns.Maps.{IsHeldByMap};
ghost use Rattle.lines_of_flying.specs.cycle_join.Joins.{FliesSome, Joins};
ghost use Rattle.lines_of_flying.specs.cycle_join.Meetings.{AreCycles, AreCyclesApart, IsMeetingGround};

use crate::cycle_join::cycles::{Cycles, cycles_of};
use crate::cycle_join::exchanges::join_all;
use crate::cycle_join::ground::{Ground, ground_of};
use crate::cycle_join::parts::{first_leg, has_one_label, legs_of};
use crate::cycle_join::rounds::round;
use crate::successors;
use entries::{Entries, NoMemory};
use fleet_model::{Assignment, Connection, Tables};
use std::alloc::Global;

/// What the cycles of a fleet's legs come to. Legs go by their numbers.
#[derive(Drop)]
pub enum Joined {
    /// One tour of all the fleet's legs that holds the given pairs, from the first of them.
    Tour(Entries<u32>),
    /// No tour holds the given pairs: these legs, some but not all of the fleet's and the first among them, are
    /// followed by one another alone in each fitting map that holds the pairs. They are the fewest of which that is so.
    Apart(Entries<u32>),
}

/// A tour of a fleet's legs that holds given pairs, or the legs that are apart from the others.
///
/// A fitting map is taken apart into its cycles. Where two turns of different cycles, none of them a given pair, touch
/// one minute at one station, their departures are exchanged: the map stays fitting, and the two cycles become one.
/// Where no two cycles touch any more, they are apart in each map (Gopalan and Talluri 1998).
pub fn join(
    alloc: Global,
    tables: &Tables,
    plan: &Assignment,
    fleet: u32,
    pairs: &[Connection],
) -> Result<Joined, NoMemory>
    requires plan { IsAssignment tables.now plan.now }
    requires fleet { fleet < fleets_in tables.now }
    requires held { IsHeldByMap tables.now plan.now fleet pairs.now }
    requires flies { FliesSome tables.now plan.now fleet }
    ensures { IfOk result (Joins tables.now plan.now fleet pairs.now) }
{
    let ground = ground_of(alloc, tables, plan, fleet, pairs)?;
    let turns = successors(alloc, tables, plan, fleet, pairs)?;
    let mut cycles = cycles_of(alloc, &ground, turns.into_vec())?;
    join_all(&ground, &mut cycles);
    answer(alloc, &ground, &cycles)
}

// The answer where no two cycles touch.
fn answer(alloc: Global, ground: &Ground<'_>, cycles: &Cycles) -> Result<Joined, NoMemory>
    requires ground { IsMeetingGround ground.now }
    requires cycles { AreCycles ground.now cycles.now }
    requires apart { AreCyclesApart ground.now cycles.now }
    requires flies { FliesSome ground.now.tables.now ground.now.plan.now ground.now.fleet }
    ensures { IfOk result (Joins ground.now.tables.now ground.now.plan.now ground.now.fleet ground.now.pairs.now) }
{
    let first = first_leg(ground);
    if has_one_label(ground, cycles, first) {
        Ok(Joined::Tour(round(alloc, ground, cycles, first)?))
    } else {
        Ok(Joined::Apart(legs_of(alloc, ground, cycles, first)?))
    }
}
