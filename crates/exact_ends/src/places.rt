use basis_factors::fixed_numbers::{NONE, at, filled, place_of, put};
use dual_pivots::Lines;
use entries::NoMemory;
use lp_rows::{Outline, Program};
use std::alloc::Global;

/// The basis to start from, by lines. Basic are: the cheapest kept pair of each leg, at each station the ground arcs of a fleet
/// from all nodes but the last, each in the line of the node that it leads to, each fleet's slack, and each room of a day with a limit.
/// The first node's line of a station keeps its artificial column, since the lines of its nodes sum to one without arcs, and so does a
/// line whose arc went. No real column then weighs more than it costs.
pub(crate) fn start_head(
    alloc: Global,
    program: &Program,
    lines: &Lines,
) -> Result<Vec<u32>, NoMemory> {
    let outline = &program.outline;
    let mut head = cheapest_pairs(alloc, program)?;
    head.resize(lines.count(), NONE)?;
    lay_arcs(head.as_mut_slice(), outline);
    lay_slacks(head.as_mut_slice(), outline);
    for line in 0..head.len() {
        if head[line] == NONE {
            put(head.as_mut_slice(), line, lines.artificial(line));
        }
    }
    Ok(head)
}

// The number of the cheapest kept pair of each leg, at a tie the least, or none.
fn cheapest_pairs(alloc: Global, program: &Program) -> Result<Vec<u32>, NoMemory> {
    let costs = program.rows.costs.as_slice();
    let mut cheapest = filled(alloc, NONE, program.outline.legs as usize)?;
    let pairs = program.outline.pairs.as_slice();
    for number in 0..pairs.len() {
        let leg = pairs[number].leg as usize;
        let other = at(&cheapest, leg, NONE);
        if other == NONE || at(costs, number, 0) < at(costs, other as usize, 0) {
            put(cheapest.as_mut_slice(), leg, place_of(number));
        }
    }
    Ok(cheapest)
}

// The arc that leads to each node but a station's first, in that node's line, where it stays.
fn lay_arcs(head: &mut [u32], outline: &Outline) {
    for number in 0..outline.nodes.len() as u32 {
        if let Some(column) = arc_into(outline, number) {
            put(head, outline.balance_line(number) as usize, column);
        }
    }
}

// The column of the arc that leads to a node, but to a station's first one, where the arc stays.
fn arc_into(outline: &Outline, number: u32) -> Option<u32> {
    let nodes = outline.nodes.as_slice();
    let place = number as usize;
    if place == 0 || place >= nodes.len() || nodes[place].place == 0 {
        return None;
    }
    outline.ground_column(number - 1)
}

// Each fleet's slack in its count line, and each room in its parking line.
fn lay_slacks(head: &mut [u32], outline: &Outline) {
    for fleet in 0..outline.fleets {
        put(
            head,
            outline.count_line(fleet) as usize,
            outline.slack_column(fleet),
        );
    }
    for number in 0..outline.parks.len() as u32 {
        put(
            head,
            outline.parking_line(number) as usize,
            outline.room_column(number),
        );
    }
}
