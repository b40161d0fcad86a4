//! Which ground arcs stay among the columns: those on which aircraft may wait.
ghost use Rattle.std.specs.Prelude.{◌≡◌, ◌<◌, ◌++◌, ◌∷◌, ◌^◌, [], if◌then◌else◌, length, map, IfOk, OnOk};
ghost use Rattle.fleet_model.specs.Kept.{kept_by};
ghost use Rattle.fleet_model.specs.Schedule.{fleets_in};
ghost use Rattle.node_aggregate.specs.KeptIdles.{AreIdleIn};
ghost use Rattle.lp_rows.specs.Layout.{AreByStation, IsNetwork, all_nodes, moment_at, nodes_of_fleet, starts_in};
ghost use Rattle.lp_rows.specs.Staying.{passing_below, stays_at};

use crate::network::Network;
use entries::NoMemory;
use fleet_model::{Kept, Tables};
use node_aggregate::island_cut::Idle;
use node_aggregate::{idle_minutes, moments};
use std::alloc::Global;

/// The moment of the arc from each node, in the order of the nodes: the first minute of its wait at which its station
/// is idle, where there is one. No plan has an aircraft on such an arc, so it is no column.
pub fn arc_moments(
    alloc: Global,
    tables: &Tables,
    kept: &Kept,
    network: &Network,
) -> Result<Vec<Option<u16>>, NoMemory>
    requires shape { AreByStation tables.now network.now }
    requires network { IsNetwork tables.now (kept_by kept.now) (starts_in network.now) }
    ensures { IfOk result (λ moments. moments.items ≡ map (moment_at tables.now (kept_by kept.now) (starts_in network.now)) (all_nodes tables.now (starts_in network.now))) }
{
    let idle = idle_minutes(alloc, tables, kept)?;
    let mut found = Vec::new(alloc);
    for fleet in 0..tables.fleet_count() {
        push_fleet(
            alloc,
            &mut found,
            tables,
            kept,
            network,
            idle.as_slice(),
            fleet,
        )?;
    }
    Ok(found)
}

// Puts the moments of a fleet's arcs behind those so far.
fn push_fleet(
    alloc: Global,
    found: &mut Vec<Option<u16>>,
    tables: &Tables,
    kept: &Kept,
    network: &Network,
    idle: &[Idle],
    fleet: u32,
) -> Result<(), NoMemory>
    requires shape { AreByStation tables.now network.now }
    requires network { IsNetwork tables.now (kept_by kept.now) (starts_in network.now) }
    requires idle { AreIdleIn tables.now (kept_by kept.now) idle.now }
    requires fleet { fleet < fleets_in tables.now }
    ensures { OnOk result (found.new.items ≡ found.old.items
        ++ map (moment_at tables.now (kept_by kept.now) (starts_in network.now)) (nodes_of_fleet tables.now (starts_in network.now) fleet)) }
{
    for station in 0..tables.station_count() {
        let starts = network.starts(tables, fleet, station);
        let there = moments(alloc, tables, kept, fleet, station, starts, idle)?;
        found.extend_from_slice(there.as_slice())?;
    }
    Ok(())
}

/// The numbers of the nodes whose arcs stay, rising: those of the arcs without a moment.
#[tactic(auto, using(crate::proofs::PassingNumbers::no_number, crate::proofs::PassingNumbers::one_number_more))]
pub fn staying_arcs(alloc: Global, moments: &[Option<u16>]) -> Result<Vec<u32>, NoMemory>
    requires { length moments.now < 2 ^ 32 }
    ensures { IfOk result (λ arcs. arcs.items ≡ passing_below (stays_at moments.now) (length moments.now)) }
{
    let mut arcs = Vec::new(alloc);
    for number in 0..moments.len() as u32 {
        push_where(&mut arcs, number, moments[number as usize].is_none())?;
    }
    Ok(arcs)
}

/// Puts a number behind those so far, where it is one.
#[inline(always)]
pub(crate) fn push_where(numbers: &mut Vec<u32>, number: u32, is_one: bool) -> Result<(), NoMemory>
    ensures { OnOk result (numbers.new.items ≡ numbers.old.items ++ (if is_one then number ∷ [] else [])) }
{
    if is_one {
        numbers.push(number)?;
    }
    Ok(())
}
