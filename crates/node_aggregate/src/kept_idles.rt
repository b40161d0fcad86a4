//! The idle minutes of a subproblem.
ghost use Rattle.std.specs.Prelude.{◌≡◌, ◌<◌, ◌≤◌, IfOk};
ghost use Rattle.fleet_model.specs.Kept.{kept_by};
ghost use Rattle.fleet_model.specs.Schedule.{legs_in};
ghost use Rattle.fleet_model.specs.declared.limits.TheConstants.{MAX_CHOICES};
ghost use Rattle.node_aggregate.specs.KeptIdles.{AreIdleIn, keeps_allowed, strange_on};

use crate::island_cut::{Idle, idle};
use entries::{Entries, NoMemory};
use fleet_model::{Kept, Pair, Tables};
use std::alloc::Global;

/// The minutes at which a station is empty in every mixed plan of a subproblem, by station, then minute. None are told
/// where a kept pair may not be flown.
pub fn idle_minutes(alloc: Global, tables: &Tables, kept: &Kept) -> Result<Entries<Idle>, NoMemory>
    ensures { IfOk result (AreIdleIn tables.now (kept_by kept.now)) }
{
    if keeps_allowed(tables, kept) {
        idle(alloc, tables)
    } else {
        Ok(Entries::from_vec(Vec::new(alloc)))
    }
}

// Whether each kept pair may be flown.
#[tactic(auto, unfolding(crate::specs::KeptIdles::keeps_allowed))]
fn keeps_allowed(tables: &Tables, kept: &Kept) -> bool
    ensures { result ≡ keeps_allowed tables.now (kept_by kept.now) }
{
    let mut strange = 0;
    for leg in 0..tables.leg_count() {
        strange += strange_on(tables, kept, leg);
    }
    strange == 0
}

// How many pairs of a leg are kept and may not be flown.
fn strange_on(tables: &Tables, kept: &Kept, leg: u32) -> u32
    requires { leg < legs_in tables.now }
    ensures value { result ≡ strange_on tables.now (kept_by kept.now) leg }
    ensures few { result ≤ MAX_CHOICES }
{
    let mut strange = 0;
    for choice in 0..tables.choice_count(leg) {
        if kept.kept(leg, choice) && tables.cost(Pair { leg, choice }).is_none() {
            strange += 1;
        }
    }
    strange
}
