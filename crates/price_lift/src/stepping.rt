//! Prices as steps: from the start of each node on whose value is another than that of the node before.
ghost use Rattle.std.specs.Prelude.{◌≡◌, ◌<◌, ◌≤◌, ◌++◌, length, slice_index_or, pos, IfOk, OnOk};
ghost use Rattle.lp_rows.specs.Layout.{AreByStation, all_nodes, starts_in};
ghost use Rattle.price_lift.specs.Steps.{all_steps, are_zero, is_node_step, node_step_where};

use dual_bound::PriceStep;
use entries::NoMemory;
use fleet_model::Tables;
use lp_rows::{Network, Node};
use std::alloc::Global;

/// The steps of all prices, by fleet, station and minute. The values are those of the nodes, in their order; others may
/// follow.
pub(crate) fn price_steps(
    alloc: Global,
    tables: &Tables,
    network: &Network,
    nodes: &[Node],
    values: &[i128],
) -> Result<Vec<PriceStep>, NoMemory>
    requires shape { AreByStation tables.now network.now }
    requires nodes { nodes.now ≡ all_nodes tables.now (starts_in network.now) }
    requires values { length nodes.now ≤ length values.now }
    ensures { IfOk result (λ steps. steps.items ≡ all_steps tables.now (starts_in network.now) (λ k. slice_index_or values.now k (pos 0))) }
{
    let mut steps = Vec::new(alloc);
    for place in 0..nodes.len() {
        let node = nodes[place];
        let starts = network.starts(tables, node.fleet, node.station);
        push_step(&mut steps, starts, values, place, node)?;
    }
    Ok(steps)
}

// Puts the step at the start of a node behind those so far, where there is one.
fn push_step(
    steps: &mut Vec<PriceStep>,
    starts: &[u16],
    values: &[i128],
    place: usize,
    node: Node,
) -> Result<(), NoMemory>
    requires few { length starts.now ≤ 10080 }
    requires node { node.place < length starts.now }
    requires within { place < length values.now }
    ensures { OnOk result (steps.new.items ≡ steps.old.items ++ node_step_where starts.now (λ k. slice_index_or values.now k (pos 0)) place node) }
{
    if !is_step(values, place, node, starts) {
        return Ok(());
    }
    steps.push(PriceStep {
        fleet: node.fleet,
        station: node.station,
        minute: starts[node.place as usize],
        value: values[place],
    })?;
    Ok(())
}

// Whether a node's price is another than before: than that of the node before, and at the first node of a fleet at a
// station, whether there is any price but 0.
#[tactic(auto, unfolding(crate::specs::Steps::is_node_step))]
fn is_step(values: &[i128], place: usize, node: Node, starts: &[u16]) -> bool
    requires within { place < length values.now }
    requires few { length starts.now ≤ 10080 }
    ensures { result ≡ is_node_step (length starts.now) (λ k. slice_index_or values.now k (pos 0)) place node }
{
    if node.place == 0 {
        !are_zero(values, place, starts.len())
    } else {
        values[place] != values[place.saturating_sub(1)]
    }
}

// Whether so many values from a place on are 0; there is none but 0 past the last.
#[tactic(auto, unfolding(crate::specs::Steps::are_zero))]
fn are_zero(values: &[i128], from: usize, count: usize) -> bool
    requires from { from < length values.now }
    requires count { count ≤ 10080 }
    ensures { result ≡ are_zero (λ k. slice_index_or values.now k (pos 0)) from count }
{
    for past in 0..count {
        if from + past < values.len() && values[from + past] != 0 {
            return false;
        }
    }
    true
}
