//! The number of a line in a column, by their kinds.
ghost use Rattle.std.specs.Prelude.{◌≡◌, ◌<◌, ◌≤◌, length};
ghost use Rattle.fleet_model.specs.Schedule.{IsPair, day_end, fleets_in};
ghost use Rattle.lp_rows.specs.Entries.{IsColumn, IsLine, IsNode, balance_entry, column_cost, comes_to_node, count_entry, cover_entry, entry_of, gets_arc, is_in_node, leaves_node, one_if, parking_entry, passes_day_end, passes_start, place_after, right_side_of, same_node, same_park};
ghost use Rattle.lp_rows.specs.Layout.{AreByStation, starts_in};

use crate::kinds::{Column, Line, Node, Park};
use crate::network::Network;
use fleet_model::period::day_end;
use fleet_model::{Pair, Tables};
use node_aggregate::node_end;

/// The number of a line in a column: from -1 to 2. Takes no memory.
pub fn entry(tables: &Tables, network: &Network, line: Line, column: Column) -> i128
    requires shape { AreByStation tables.now network.now }
    requires line { IsLine tables.now (starts_in network.now) line }
    requires column { IsColumn tables.now (starts_in network.now) column }
    ensures { result ≡ entry_of tables.now (starts_in network.now) line column }
{
    match line {
        Line::Cover { leg } => cover_entry(leg, column),
        Line::Balance(node) => balance_entry(tables, network, node, column),
        Line::Count { fleet } => count_entry(tables, network, fleet, column),
        Line::Parking(park) => parking_entry(tables, network, park, column),
    }
}

/// What a line is to come to. Takes no memory.
pub fn right_side(tables: &Tables, network: &Network, line: Line) -> i128
    requires { IsLine tables.now (starts_in network.now) line }
    ensures { result ≡ right_side_of tables.now line }
{
    match line {
        Line::Cover { .. } => 1,
        Line::Balance(_) => 0,
        Line::Count { fleet } => i128::from(tables.fleet(fleet).aircraft),
        Line::Parking(park) => i128::from(tables.parking(park.station).unwrap_or(0)),
    }
}

/// What a column costs: the pair's cost, and 0 on the ground. Takes no memory.
pub fn column_cost(tables: &Tables, column: Column) -> i128
    ensures { result ≡ column_cost tables.now column }
{
    match column {
        Column::Flight(pair) => tables.cost(pair).unwrap_or(0),
        Column::Ground(_) => 0,
        Column::Slack { .. } => 0,
        Column::Room(_) => 0,
    }
}

fn cover_entry(leg: u32, column: Column) -> i128
    ensures { result ≡ cover_entry leg column }
{
    match column {
        Column::Flight(pair) => one_if(leg == pair.leg),
        Column::Ground(_) => 0,
        Column::Slack { .. } => 0,
        Column::Room(_) => 0,
    }
}

fn balance_entry(tables: &Tables, network: &Network, node: Node, column: Column) -> i128
    requires shape { AreByStation tables.now network.now }
    requires node { IsNode tables.now (starts_in network.now) node }
    requires column { IsColumn tables.now (starts_in network.now) column }
    ensures { result ≡ balance_entry tables.now (starts_in network.now) node column }
{
    match column {
        Column::Flight(pair) => {
            one_if(comes_to_node(tables, network, node, pair))
                - one_if(leaves_node(tables, network, node, pair))
        }
        Column::Ground(arc) => {
            one_if(gets_arc(tables, network, node, arc)) - one_if(same_node(node, arc))
        }
        Column::Slack { .. } => 0,
        Column::Room(_) => 0,
    }
}

fn count_entry(tables: &Tables, network: &Network, fleet: u32, column: Column) -> i128
    requires shape { AreByStation tables.now network.now }
    requires fleet { fleet < fleets_in tables.now }
    requires column { IsColumn tables.now (starts_in network.now) column }
    ensures { result ≡ count_entry tables.now (starts_in network.now) fleet column }
{
    match column {
        Column::Flight(pair) => {
            if fleet == tables.fleet_by(pair) {
                i128::from(tables.laps(pair))
            } else {
                0
            }
        }
        Column::Ground(arc) => one_if(passes_start(tables, network, fleet, arc)),
        Column::Slack { fleet: other } => one_if(fleet == other),
        Column::Room(_) => 0,
    }
}

fn parking_entry(tables: &Tables, network: &Network, park: Park, column: Column) -> i128
    requires shape { AreByStation tables.now network.now }
    requires some { 0 < park.day }
    requires week { park.day ≤ 7 }
    requires column { IsColumn tables.now (starts_in network.now) column }
    ensures { result ≡ parking_entry tables.now (starts_in network.now) park column }
{
    match column {
        Column::Flight(_) => 0,
        Column::Ground(arc) => one_if(passes_day_end(tables, network, park, arc)),
        Column::Slack { .. } => 0,
        Column::Room(other) => one_if(same_park(park, other)),
    }
}

fn one_if(passes: bool) -> i128
    ensures value { result ≡ one_if passes }
{
    if passes { 1 } else { 0 }
}

// A pair departs in a node.
fn leaves_node(tables: &Tables, network: &Network, node: Node, pair: Pair) -> bool
    requires shape { AreByStation tables.now network.now }
    requires node { IsNode tables.now (starts_in network.now) node }
    requires pair { IsPair tables.now pair }
    ensures { result ≡ leaves_node tables.now (starts_in network.now) node pair }
{
    if node.fleet != tables.fleet_by(pair) {
        return false;
    }
    let flown = tables.leg(pair.leg);
    let starts = network.starts(tables, node.fleet, node.station);
    flown.from == node.station && is_in(tables, starts, node.place, tables.departure(pair))
}

// The aircraft of a pair is ready in a node.
fn comes_to_node(tables: &Tables, network: &Network, node: Node, pair: Pair) -> bool
    requires shape { AreByStation tables.now network.now }
    requires node { IsNode tables.now (starts_in network.now) node }
    requires pair { IsPair tables.now pair }
    ensures { result ≡ comes_to_node tables.now (starts_in network.now) node pair }
{
    if node.fleet != tables.fleet_by(pair) {
        return false;
    }
    let flown = tables.leg(pair.leg);
    let starts = network.starts(tables, node.fleet, node.station);
    flown.to == node.station && is_in(tables, starts, node.place, tables.ready(pair))
}

// The arc from another node leads to this one.
fn gets_arc(tables: &Tables, network: &Network, node: Node, arc: Node) -> bool
    requires shape { AreByStation tables.now network.now }
    requires node { IsNode tables.now (starts_in network.now) node }
    requires arc { IsNode tables.now (starts_in network.now) arc }
    ensures { result ≡ gets_arc (starts_in network.now) node arc }
{
    if node.fleet != arc.fleet {
        return false;
    }
    let starts = network.starts(tables, node.fleet, node.station);
    node.station == arc.station && node.place == place_after(starts, arc.place)
}

fn same_node(node: Node, other: Node) -> bool
    ensures { result ≡ same_node node other }
{
    node.fleet == other.fleet && node.station == other.station && node.place == other.place
}

fn same_park(park: Park, other: Park) -> bool
    ensures { result ≡ same_park park other }
{
    park.station == other.station && park.day == other.day
}

// The arc from a node of the fleet passes the start of the period.
fn passes_start(tables: &Tables, network: &Network, fleet: u32, arc: Node) -> bool
    requires shape { AreByStation tables.now network.now }
    requires fleet { fleet < fleets_in tables.now }
    requires arc { IsNode tables.now (starts_in network.now) arc }
    ensures { result ≡ passes_start (starts_in network.now) fleet arc }
{
    if fleet != arc.fleet {
        return false;
    }
    let starts = network.starts(tables, fleet, arc.station);
    starts.len() == arc.place as usize + 1
}

// The arc from a node passes the end of a day at a station.
fn passes_day_end(tables: &Tables, network: &Network, park: Park, arc: Node) -> bool
    requires shape { AreByStation tables.now network.now }
    requires some { 0 < park.day }
    requires week { park.day ≤ 7 }
    requires arc { IsNode tables.now (starts_in network.now) arc }
    ensures { result ≡ passes_day_end tables.now (starts_in network.now) park arc }
{
    if park.station != arc.station {
        return false;
    }
    let starts = network.starts(tables, arc.fleet, arc.station);
    node_end(tables, starts, arc.place as usize) == day_end(park.day)
}

// A minute lies in a node.
fn is_in(tables: &Tables, starts: &[u16], place: u32, minute: u16) -> bool
    requires { place < length starts.now }
    ensures { result ≡ is_in_node tables.now starts.now place minute }
{
    starts[place as usize] <= minute && minute <= node_end(tables, starts, place as usize)
}

// The place of the node after one.
fn place_after(starts: &[u16], place: u32) -> u32
    requires { length starts.now ≤ 10080 }
    ensures { result ≡ place_after (length starts.now) place }
{
    if (place as usize) + 1 < starts.len() {
        place + 1
    } else {
        0
    }
}
