//! Assignments from lists of fleets.
ghost use Rattle.std.specs.Prelude.{IfSome};
ghost use Rattle.fleet_model.specs.Legal.{IsAssignment};

use fleet_model::{Assignment, Tables};

/// The assignment of these fleets to the legs in their order, where it is one of the tables.
pub fn assignment(tables: &Tables, fleets: &[u32]) -> Option<Assignment>
    ensures { IfSome result (IsAssignment tables.now) }
{
    if fleets.len() != tables.leg_count() as usize {
        return None;
    }
    let mut plan = Assignment::empty();
    for fleet in fleets {
        if *fleet >= tables.fleet_count() {
            return None;
        }
        plan.push(*fleet);
    }
    Some(plan)
}
