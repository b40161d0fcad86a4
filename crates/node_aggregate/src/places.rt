ghost use Rattle.std.specs.Prelude.{◌≡◌, ◌<◌, length};
ghost use Rattle.node_aggregate.specs.Nodes.{IsNodeOf, RiseFromZero, end_in};

use fleet_model::Tables;

/// The place of the node that a minute lies in: that of the last start that is at most the minute. The starts are
/// those that `nodes` gave, where there is a node. Takes no memory.
pub fn node_of(starts: &[u16], minute: u16) -> u32
    requires { RiseFromZero starts.now }
    ensures { IsNodeOf starts.now minute result }
{
    (starts.partition_point(|start| *start <= minute) - 1) as u32
}

/// The last minute of the node at a place: the one before the next start, and of the last node the last of the period. Takes no
/// memory.
pub fn node_end(tables: &Tables, starts: &[u16], place: usize) -> u16
    requires { place < length starts.now }
    ensures { result ≡ end_in tables.now starts.now place }
{
    if place + 1 < starts.len() {
        starts[place + 1].saturating_sub(1)
    } else {
        tables.period() - 1
    }
}
