//! Where columns and lines stand.
ghost use Rattle.std.specs.Prelude.{◌≡◌, ◌<◌, length, IfOk, IfSome};
ghost use Rattle.fleet_model.specs.Kept.{kept_by};
ghost use Rattle.lp_rows.specs.declared.kinds.Column.TheVariants.{Flight, Room, Slack};
ghost use Rattle.lp_rows.specs.declared.kinds.Line.TheVariants.{Balance, Count, Parking};
ghost use Rattle.lp_rows.specs.Outline.{IsOutline, StandsAt, arc_in, balance_line, column_count, columns_in, count_line, first_priced_line, flight_column, ground_column, lines_in, node_in, outline_pair, park_in, parking_line, room_column, slack_column};

use crate::arcs::{arc_moments, staying_arcs};
use crate::layout::{kept_pairs, network_nodes, parks};
use crate::network::Network;
use crate::outline::Outline;
use entries::{Entries, NoMemory};
use fleet_model::{Kept, Tables};
use std::alloc::Global;

impl Outline {
    /// The outline of the subproblem of the kept pairs.
    pub fn new(alloc: Global, tables: &Tables, kept: &Kept) -> Result<Outline, NoMemory>
        ensures { IfOk result (IsOutline tables.now (kept_by kept.now)) }
    {
        let network = Network::new(alloc, tables, kept)?;
        let pairs = kept_pairs(alloc, tables, kept)?;
        let nodes = network_nodes(alloc, tables, &network)?;
        let moments = arc_moments(alloc, tables, kept, &network)?;
        let arcs = staying_arcs(alloc, &moments)?;
        let parks = parks(alloc, tables)?;
        Ok(Outline {
            network,
            pairs: Entries::from_vec(pairs),
            nodes: Entries::from_vec(nodes),
            moments: Entries::from_vec(moments),
            arcs: Entries::from_vec(arcs),
            parks: Entries::from_vec(parks),
            legs: tables.leg_count(),
            fleets: tables.fleet_count(),
        })
    }

    /// How many columns there are.
    pub fn column_count(&self) -> u32
        ensures value { result ≡ column_count self.now }
        ensures all { result ≡ length (columns_in self.now) }
    {
        self.pairs.len() as u32 + self.arcs.len() as u32 + self.fleets + self.parks.len() as u32
    }

    /// The column of the kept pair of this number.
    pub fn flight_column(&self, number: u32) -> u32
        requires { number < length self.now.pairs }
        ensures place { result ≡ flight_column self.now number }
        ensures stands { StandsAt (columns_in self.now) result (Flight (outline_pair self.now number)) }
    {
        number
    }

    /// The column of the ground arc from the node of this number, by bisection, where the arc stays.
    pub fn ground_column(&self, number: u32) -> Option<u32>
        requires { number < length self.now.nodes }
        ensures place { result ≡ ground_column self.now number }
        ensures stands { IfSome result (λ column. StandsAt (columns_in self.now) column (arc_in self.now number)) }
    {
        match self.arcs.as_slice().binary_search(&number) {
            Ok(place) => Some(self.pairs.len() as u32 + place as u32),
            Err(_) => None,
        }
    }

    /// The column of a fleet's slack.
    pub fn slack_column(&self, fleet: u32) -> u32
        requires { fleet < self.now.fleets }
        ensures place { result ≡ slack_column self.now fleet }
        ensures stands { StandsAt (columns_in self.now) result (Slack fleet) }
    {
        self.pairs.len() as u32 + self.arcs.len() as u32 + fleet
    }

    /// The column of the room at the end of the day of this number.
    pub fn room_column(&self, number: u32) -> u32
        requires { number < length self.now.parks }
        ensures place { result ≡ room_column self.now number }
        ensures stands { StandsAt (columns_in self.now) result (Room (park_in self.now number)) }
    {
        self.pairs.len() as u32 + self.arcs.len() as u32 + self.fleets + number
    }

    /// The balance line of the node of this number.
    pub fn balance_line(&self, number: u32) -> u32
        requires { number < length self.now.nodes }
        ensures place { result ≡ balance_line self.now number }
        ensures stands { StandsAt (lines_in self.now) result (Balance (node_in self.now number)) }
    {
        self.legs + number
    }

    /// The line that counts a fleet.
    pub fn count_line(&self, fleet: u32) -> u32
        requires { fleet < self.now.fleets }
        ensures place { result ≡ count_line self.now fleet }
        ensures stands { StandsAt (lines_in self.now) result (Count fleet) }
    {
        self.legs + self.nodes.len() as u32 + fleet
    }

    /// The parking line of the day of this number.
    pub fn parking_line(&self, number: u32) -> u32
        requires { number < length self.now.parks }
        ensures place { result ≡ parking_line self.now number }
        ensures stands { StandsAt (lines_in self.now) result (Parking (park_in self.now number)) }
    {
        self.legs + self.nodes.len() as u32 + self.fleets + number
    }

    /// The first of the lines whose dual values are prices: the balance lines, the count lines and the parking lines. A cover
    /// line has none.
    pub fn first_priced_line(&self) -> u32
        ensures { result ≡ first_priced_line self.now }
    {
        self.legs
    }

    /// The first of the balance lines, which follow one another in the order of the nodes.
    pub fn first_balance_line(&self) -> u32
        ensures { result ≡ balance_line self.now 0 }
    {
        self.legs
    }
}
