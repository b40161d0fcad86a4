//! The laws of nodes and of arcs over islands, over all tables, kept pairs and weights. Each function is a law: its
//! contract is the statement, and it does nothing.
ghost use Rattle.node_aggregate.specs.Laws.{NeedIsAtNodeEnds, NodesAreOne};
ghost use Rattle.node_aggregate.specs.ArcLaws.{GoneIsEmpty};

/// Where pairs that aren't kept weigh 0, the aircraft that must be at a station at the day start are the greatest of
/// 0 and of departures less arrivals at the ends of its nodes.
pub fn need_is_at_node_ends()
    ensures { NeedIsAtNodeEnds }
{}

/// Events have one list of nodes.
pub fn nodes_are_one()
    ensures { NodesAreOne }
{}

/// In each mixed plan of a subproblem an arc that has a moment carries no aircraft.
pub fn gone_is_empty()
    ensures { GoneIsEmpty }
{}
