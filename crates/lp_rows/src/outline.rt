ghost use Rattle.std.specs.Prelude.{◌+◌, ◌^◌, ◌<◌, length};
ghost use Rattle.lp_rows.specs.Staying.{AreStaying};

use crate::kinds::{Node, Park};
use crate::network::Network;
use entries::Entries;
use fleet_model::Pair;

/// What stands where in the linear program of a subproblem: its time-line network, its kept pairs, which ground arcs
/// stay, which days of stations have a limit, and how many legs and fleets there are. Columns and lines are asked for by their
/// methods, and their places are counted nowhere else.
#[derive(Drop)]
pub struct Outline {
    pub network: Network,
    /// The kept pairs, by leg, then choice.
    pub pairs: Entries<Pair>,
    /// The nodes of the network, by fleet, station and place.
    pub nodes: Entries<Node>,
    /// The moment of the arc from each node, by the numbers of the nodes; an arc that has one is no column.
    pub moments: Entries<Option<u16>>,
    /// The numbers of the nodes whose arcs stay, rising.
    pub arcs: Entries<u32>,
    /// The days of stations that have a limit, by station, then day.
    pub parks: Entries<Park>,
    pub legs: u32,
    pub fleets: u32,
    pub ghost columns_fit: { length pairs + length arcs + fleets + length parks < 2 ^ 32 },
    pub ghost lines_fit: { legs + length nodes + fleets + length parks < 2 ^ 32 },
    pub ghost arcs_stay: { AreStaying (length nodes) moments arcs },
}
