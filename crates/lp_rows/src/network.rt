ghost use Rattle.std.specs.Prelude.{◌≡◌, ◌<◌, ◌≤◌, length, IfOk};
ghost use Rattle.fleet_model.specs.Kept.{kept_by};
ghost use Rattle.fleet_model.specs.Schedule.{fleets_in, stations_in};
ghost use Rattle.node_aggregate.specs.Nodes.{AreNodesAt};
ghost use Rattle.lp_rows.specs.Layout.{AreByStation, HaveNodes, IsNetwork, starts_in};

use entries::{Entries, NoMemory};
use fleet_model::{Kept, Tables};
use node_aggregate::timeline_net::events;
use node_aggregate::{days_at, nodes};
use std::alloc::Global;
use std::marker::Model;

/// The time-line network of a subproblem: the starts of the nodes of each fleet at each station. Contracts see them
/// in lists, by fleet, then station.
#[derive(Drop)]
pub struct Network {
    starts: Entries<Entries<Entries<u16>>>,
}

impl Model for Network {
    ghost use Rattle.std.specs.Prelude.{ℕ, List};

    ghost Value = { List (List (List ℕ)) };

    ghost view = { λ network. network.starts };
}

impl Network {
    /// The network of the kept pairs.
    pub fn new(alloc: Global, tables: &Tables, kept: &Kept) -> Result<Network, NoMemory>
        ensures shape { IfOk result (AreByStation tables.now) }
        ensures nodes { IfOk result (λ network. IsNetwork tables.now (kept_by kept.now) (starts_in network)) }
    {
        let mut fleets = Vec::new(alloc);
        for fleet in 0..tables.fleet_count() {
            fleets.push(fleet_nodes(alloc, tables, kept, fleet)?)?;
        }
        Ok(Network {
            starts: Entries::from_vec(fleets),
        })
    }

    /// The starts of the nodes of a fleet at a station.
    #[tactic(auto, using(fleet_model::proofs::PeriodMinutes::at_most_week))]
    pub fn starts(&self, tables: &Tables, fleet: u32, station: u32) -> &[u16]
        requires shape { AreByStation tables.now self.now }
        requires fleet { fleet < fleets_in tables.now }
        requires station { station < stations_in tables.now }
        ensures value { result.now ≡ starts_in self.now fleet station }
        ensures few { length result.now ≤ 10080 }
    {
        self.starts.as_slice()[fleet as usize].as_slice()[station as usize].as_slice()
    }
}

// The starts of the nodes of a fleet, by station.
fn fleet_nodes(
    alloc: Global,
    tables: &Tables,
    kept: &Kept,
    fleet: u32,
) -> Result<Entries<Entries<u16>>, NoMemory>
    requires { fleet < fleets_in tables.now }
    ensures { IfOk result (HaveNodes tables.now (kept_by kept.now) fleet) }
{
    let mut stations = Vec::new(alloc);
    for station in 0..tables.station_count() {
        stations.push(station_nodes(alloc, tables, kept, fleet, station)?)?;
    }
    Ok(Entries::from_vec(stations))
}

// The starts of the nodes of a fleet at a station.
fn station_nodes(
    alloc: Global,
    tables: &Tables,
    kept: &Kept,
    fleet: u32,
    station: u32,
) -> Result<Entries<u16>, NoMemory>
    requires fleet { fleet < fleets_in tables.now }
    requires station { station < stations_in tables.now }
    ensures { IfOk result (AreNodesAt tables.now (kept_by kept.now) fleet station) }
{
    let happening = events(alloc, tables, kept, fleet, station)?;
    let days = days_at(tables, station);
    Ok(Entries::from_vec(nodes(alloc, &happening, days)?))
}
