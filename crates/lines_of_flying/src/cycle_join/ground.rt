//! A fleet by an assignment, with given pairs.
ghost use Rattle.std.specs.Prelude.{◌≡◌, ◌<◌, IfOk};
ghost use Rattle.fleet_model.specs.Legal.{IsAssignment};
ghost use Rattle.fleet_model.specs.Schedule.{fleets_in};
ghost use Rattle.lines_of_flying.specs.cycle_join.Meetings.{IsMeetingGround};

use crate::marks_of_arriving;
use entries::NoMemory;
use fleet_model::{Assignment, Connection, Tables};
use std::alloc::Global;

/// What stays the same while cycles are joined.
#[derive(Drop)]
pub(crate) struct Ground<'a> {
    pub tables: &'a Tables,
    pub plan: &'a Assignment,
    pub fleet: u32,
    pub pairs: &'a [Connection],
    /// By leg: no given pair says what follows it.
    pub free: Vec<bool>,
}

/// A fleet by an assignment, with given pairs.
pub(crate) fn ground_of<'a>(
    alloc: Global,
    tables: &'a Tables,
    plan: &'a Assignment,
    fleet: u32,
    pairs: &'a [Connection],
) -> Result<Ground<'a>, NoMemory>
    requires plan { IsAssignment tables.now plan.now }
    requires fleet { fleet < fleets_in tables.now }
    ensures ground { IfOk result IsMeetingGround }
    ensures tables { IfOk result (λ ground. ground.tables.now ≡ tables.now) }
    ensures plan { IfOk result (λ ground. ground.plan.now ≡ plan.now) }
    ensures fleet { IfOk result (λ ground. ground.fleet ≡ fleet) }
    ensures pairs { IfOk result (λ ground. ground.pairs.now ≡ pairs.now) }
{
    let free = marks_of_arriving(alloc, tables.leg_count(), pairs)?;
    Ok(Ground {
        tables,
        plan,
        fleet,
        pairs,
        free,
    })
}
