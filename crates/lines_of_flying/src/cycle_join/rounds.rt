//! Legs in the order in which one aircraft flies them.
ghost use Rattle.std.specs.Prelude.{◌≡◌, ◌<◌, ℕ, IfOk, length};
ghost use Rattle.lines_of_flying.specs.ground_turns.Maps.{HasTurn, arrivals_of};
ghost use Rattle.lines_of_flying.specs.cycle_join.Joins.{Flies};
ghost use Rattle.lines_of_flying.specs.cycle_join.Meetings.{AreCycles};
ghost use Rattle.lines_of_flying.specs.cycle_join.Rounds.{IsRound, turn_between};

use crate::cycle_join::cycles::Cycles;
use crate::cycle_join::ground::Ground;
use entries::{Entries, NoMemory};
use fleet_model::Connection;
use std::alloc::Global;

/// The legs of a cycle from one of them on.
pub(crate) fn round(
    alloc: Global,
    ground: &Ground<'_>,
    cycles: &Cycles,
    first: u32,
) -> Result<Entries<u32>, NoMemory>
    requires cycles { AreCycles ground.now cycles.now }
    requires first { Flies ground.now.tables.now ground.now.plan.now ground.now.fleet first }
    ensures { IfOk result (IsRound cycles.now.turns.items first) }
{
    let mut legs = Vec::new(alloc);
    let mut leg = first;
    for _ in 0..ground.tables.leg_count() {
        legs.push(leg)?;
        leg = follower(&cycles.turns, leg);
        if leg == first {
            return Ok(Entries::from_vec(legs));
        }
    }
    unreachable!()
}

// The leg that follows one that arrives once in a map.
fn follower(turns: &[Connection], leg: u32) -> u32
    requires { arrivals_of turns.now leg ≡ 1 }
    ensures { HasTurn turns.now (turn_between leg result) }
{
    for turn in turns {
        if turn.arriving == leg {
            return turn.departing;
        }
    }
    unreachable!()
}
