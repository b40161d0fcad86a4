//! Where an assignment uses more aircraft than there are.
ghost use Rattle.std.specs.Prelude.{MatchOption};
ghost use Rattle.fleet_model.specs.Legal.{IsAssignment};
ghost use Rattle.plan_judge.specs.Sizes.{IsFirstTooManyBy, IsWithinBy};

use crate::counting::used;
use fleet_model::{Assignment, Sizes, Tables};

/// A fleet that uses more aircraft than it has.
#[derive(Clone, Copy)]
pub(crate) struct Overuse {
    pub fleet: u32,
    pub used: u32,
    pub has: u32,
}

/// The first fleet that uses more aircraft than it has.
pub(crate) fn first_too_many(tables: &Tables, sizes: Sizes, plan: &Assignment) -> Option<Overuse>
    requires { IsAssignment tables.now plan.now }
    ensures { MatchOption result (IsWithinBy tables.now sizes plan.now) (IsFirstTooManyBy tables.now sizes plan.now) }
{
    for fleet in 0..tables.fleet_count() {
        let used = used(tables, plan, fleet);
        let has = sizes.aircraft(tables, fleet);
        if used > has {
            return Some(Overuse { fleet, used, has });
        }
    }
    None
}
