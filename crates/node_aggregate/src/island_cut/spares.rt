ghost use Rattle.std.specs.Prelude.{◌≡◌, ◌≤◌, ◌*◌};
ghost use Rattle.fleet_model.specs.declared.limits.TheConstants.{MAX_AIRCRAFT, MAX_FLEETS};
ghost use Rattle.node_aggregate.specs.island_cut.Spare.{HavePairs, IsSpare, aircraft_in};

use crate::island_cut::joined::{Joined, quickest};
use fleet_model::Tables;
use stand_counts::used;

/// The aircraft of all fleets less those that all legs use as one fleet's, each as fast as the fleets that may fly it
/// can. Takes no memory.
pub fn spare(tables: &Tables) -> i64
    requires { HavePairs tables.now }
    ensures { IsSpare tables.now result }
{
    let plan = quickest(tables);
    let used = used(tables, &Joined { plan: &plan });
    i64::from(aircraft(tables)) - used as i64
}

/// The aircraft of all fleets. Takes no memory.
pub(crate) fn aircraft(tables: &Tables) -> u32
    ensures value { result ≡ aircraft_in tables.now }
    ensures few { result ≤ MAX_AIRCRAFT * MAX_FLEETS }
{
    let mut sum = 0;
    for fleet in 0..tables.fleet_count() {
        sum += tables.fleet(fleet).aircraft;
    }
    sum
}
