//! The order of columns and of lines.
ghost use Rattle.std.specs.Prelude.{◌≡◌, ◌<◌, ◌≤◌, ◌++◌, map, IfOk, OnOk};
ghost use Rattle.fleet_model.specs.declared.limits.TheConstants.{MAX_CHOICES, MAX_LEGS};
ghost use Rattle.fleet_model.specs.Kept.{kept_by};
ghost use Rattle.fleet_model.specs.Schedule.{fleets_in, legs_in, stations_in};
ghost use Rattle.sums.specs.Places.{list_below};
ghost use Rattle.lp_rows.specs.Layout.{AreByStation, all_kept, all_nodes, all_parks, nodes_at, nodes_of_fleet, pair_if_kept, pairs_of_leg, parking_days, parks_at, starts_in};
ghost use Rattle.lp_rows.specs.Outline.{arc_in, columns_in, lines_in};
ghost use Rattle.lp_rows.specs.declared.kinds.Column.TheVariants.{Flight, Room, Slack};
ghost use Rattle.lp_rows.specs.declared.kinds.Line.TheVariants.{Balance, Count, Cover, Parking};

use crate::kinds::{Column, Line, Node, Park};
use crate::network::Network;
use crate::outline::Outline;
use entries::NoMemory;
use fleet_model::{Kept, Pair, Tables};
use std::alloc::Global;

/// The columns: the kept pairs by leg, then choice; the ground arcs that stay by fleet, station and node; a slack for
/// each fleet; a room for each day of a station with a limit.
pub fn columns(alloc: Global, outline: &Outline) -> Result<Vec<Column>, NoMemory>
    ensures { IfOk result (λ columns. columns.items ≡ columns_in outline.now) }
{
    let mut columns = Vec::new(alloc);
    push_flights(&mut columns, outline.pairs.as_slice())?;
    push_grounds(&mut columns, outline)?;
    push_slacks(&mut columns, outline.fleets)?;
    push_rooms(&mut columns, outline.parks.as_slice())?;
    Ok(columns)
}

/// The lines: a cover line for each leg; a balance line for each node, by fleet, station and node; a count line for
/// each fleet; a parking line for each day of a station with a limit.
pub fn lines(alloc: Global, outline: &Outline) -> Result<Vec<Line>, NoMemory>
    ensures { IfOk result (λ lines. lines.items ≡ lines_in outline.now) }
{
    let mut lines = Vec::new(alloc);
    push_covers(&mut lines, outline.legs)?;
    push_balances(&mut lines, outline.nodes.as_slice())?;
    push_counts(&mut lines, outline.fleets)?;
    push_parkings(&mut lines, outline.parks.as_slice())?;
    Ok(lines)
}

fn push_flights(columns: &mut Vec<Column>, pairs: &[Pair]) -> Result<(), NoMemory>
    ensures { OnOk result (columns.new.items ≡ columns.old.items ++ map Flight pairs.now) }
{
    for pair in pairs {
        columns.push(Column::Flight(*pair))?;
    }
    Ok(())
}

fn push_grounds(columns: &mut Vec<Column>, outline: &Outline) -> Result<(), NoMemory>
    ensures { OnOk result (columns.new.items ≡ columns.old.items ++ map (arc_in outline.now) outline.now.arcs) }
{
    for number in outline.arcs.as_slice() {
        columns.push(Column::Ground(outline.nodes.as_slice()[*number as usize]))?;
    }
    Ok(())
}

fn push_slacks(columns: &mut Vec<Column>, fleets: u32) -> Result<(), NoMemory>
    ensures { OnOk result (columns.new.items ≡ columns.old.items ++ list_below Slack fleets) }
{
    for fleet in 0..fleets {
        columns.push(Column::Slack { fleet })?;
    }
    Ok(())
}

fn push_rooms(columns: &mut Vec<Column>, parks: &[Park]) -> Result<(), NoMemory>
    ensures { OnOk result (columns.new.items ≡ columns.old.items ++ map Room parks.now) }
{
    for park in parks {
        columns.push(Column::Room(*park))?;
    }
    Ok(())
}

fn push_covers(lines: &mut Vec<Line>, legs: u32) -> Result<(), NoMemory>
    ensures { OnOk result (lines.new.items ≡ lines.old.items ++ list_below Cover legs) }
{
    for leg in 0..legs {
        lines.push(Line::Cover { leg })?;
    }
    Ok(())
}

fn push_balances(lines: &mut Vec<Line>, nodes: &[Node]) -> Result<(), NoMemory>
    ensures { OnOk result (lines.new.items ≡ lines.old.items ++ map Balance nodes.now) }
{
    for node in nodes {
        lines.push(Line::Balance(*node))?;
    }
    Ok(())
}

fn push_counts(lines: &mut Vec<Line>, fleets: u32) -> Result<(), NoMemory>
    ensures { OnOk result (lines.new.items ≡ lines.old.items ++ list_below Count fleets) }
{
    for fleet in 0..fleets {
        lines.push(Line::Count { fleet })?;
    }
    Ok(())
}

fn push_parkings(lines: &mut Vec<Line>, parks: &[Park]) -> Result<(), NoMemory>
    ensures { OnOk result (lines.new.items ≡ lines.old.items ++ map Parking parks.now) }
{
    for park in parks {
        lines.push(Line::Parking(*park))?;
    }
    Ok(())
}

/// The kept pairs, by leg, then choice: the columns begin with them.
pub fn kept_pairs(alloc: Global, tables: &Tables, kept: &Kept) -> Result<Vec<Pair>, NoMemory>
    ensures { IfOk result (λ pairs. pairs.items ≡ all_kept tables.now (kept_by kept.now)) }
{
    let mut pairs = Vec::new(alloc);
    for leg in 0..tables.leg_count() {
        push_pairs(&mut pairs, tables, kept, leg)?;
    }
    Ok(pairs)
}

// Puts the kept pairs of a leg behind those so far.
fn push_pairs(pairs: &mut Vec<Pair>, tables: &Tables, kept: &Kept, leg: u32) -> Result<(), NoMemory>
    requires { leg < legs_in tables.now }
    ensures { OnOk result (pairs.new.items ≡ pairs.old.items ++ pairs_of_leg tables.now (kept_by kept.now) leg) }
{
    for choice in 0..tables.choice_count(leg) {
        push_pair(pairs, kept, Pair { leg, choice })?;
    }
    Ok(())
}

// Puts a pair behind those so far, where it is kept.
fn push_pair(pairs: &mut Vec<Pair>, kept: &Kept, pair: Pair) -> Result<(), NoMemory>
    requires leg { pair.leg < MAX_LEGS }
    requires choice { pair.choice < MAX_CHOICES }
    ensures { OnOk result (pairs.new.items ≡ pairs.old.items ++ pair_if_kept (kept_by kept.now) pair.leg pair.choice) }
{
    if !kept.kept(pair.leg, pair.choice) {
        return Ok(());
    }
    pairs.push(pair)?;
    Ok(())
}

/// The nodes, by fleet, station and place: the order of the balance lines, and of the ground arcs that stay.
pub fn network_nodes(
    alloc: Global,
    tables: &Tables,
    network: &Network,
) -> Result<Vec<Node>, NoMemory>
    requires { AreByStation tables.now network.now }
    ensures { IfOk result (λ nodes. nodes.items ≡ all_nodes tables.now (starts_in network.now)) }
{
    let mut nodes = Vec::new(alloc);
    for fleet in 0..tables.fleet_count() {
        push_fleet(&mut nodes, tables, network, fleet)?;
    }
    Ok(nodes)
}

// Puts the nodes of a fleet behind those so far.
fn push_fleet(
    nodes: &mut Vec<Node>,
    tables: &Tables,
    network: &Network,
    fleet: u32,
) -> Result<(), NoMemory>
    requires shape { AreByStation tables.now network.now }
    requires fleet { fleet < fleets_in tables.now }
    ensures { OnOk result (nodes.new.items ≡ nodes.old.items ++ nodes_of_fleet tables.now (starts_in network.now) fleet) }
{
    for station in 0..tables.station_count() {
        push_station(nodes, tables, network, fleet, station)?;
    }
    Ok(())
}

// Puts the nodes of a fleet at a station behind those so far.
fn push_station(
    nodes: &mut Vec<Node>,
    tables: &Tables,
    network: &Network,
    fleet: u32,
    station: u32,
) -> Result<(), NoMemory>
    requires shape { AreByStation tables.now network.now }
    requires fleet { fleet < fleets_in tables.now }
    requires station { station < stations_in tables.now }
    ensures { OnOk result (nodes.new.items ≡ nodes.old.items ++ nodes_at (starts_in network.now) fleet station) }
{
    for place in 0..network.starts(tables, fleet, station).len() as u32 {
        nodes.push(Node {
            fleet,
            station,
            place,
        })?;
    }
    Ok(())
}

/// The days of stations that have a limit, by station, then day.
pub fn parks(alloc: Global, tables: &Tables) -> Result<Vec<Park>, NoMemory>
    ensures { IfOk result (λ parks. parks.items ≡ all_parks tables.now) }
{
    let mut parks = Vec::new(alloc);
    for station in 0..tables.station_count() {
        push_parks(&mut parks, tables, station)?;
    }
    Ok(parks)
}

// Puts the days of a station that have a limit behind those so far.
fn push_parks(parks: &mut Vec<Park>, tables: &Tables, station: u32) -> Result<(), NoMemory>
    requires { station < stations_in tables.now }
    ensures { OnOk result (parks.new.items ≡ parks.old.items ++ parks_at tables.now station) }
{
    for number in 0..parking_days(tables, station) {
        parks.push(Park {
            station,
            day: number + 1,
        })?;
    }
    Ok(())
}

// How many days of a station have a limit.
fn parking_days(tables: &Tables, station: u32) -> u32
    requires { station < stations_in tables.now }
    ensures value { result ≡ parking_days tables.now station }
    ensures week { result ≤ 7 }
{
    if tables.parking(station).is_some() {
        tables.day_count()
    } else {
        0
    }
}
