use fleet_model::Pair;

/// A node of the time-line network: of a fleet at a station, all by number, in the order of the minutes. The arc
/// from it to the next node goes by the same numbers.
#[derive(Clone, Copy)]
pub struct Node {
    pub fleet: u32,
    pub station: u32,
    pub place: u32,
}

/// The end of a day at a station that has a limit: aircraft of all fleets on the ground are counted there. Days count from 1.
#[derive(Clone, Copy)]
pub struct Park {
    pub station: u32,
    pub day: u32,
}

/// What a column stands for.
#[derive(Clone, Copy)]
pub enum Column {
    /// How much of a leg is flown by one of its choices.
    Flight(Pair),
    /// The aircraft on the ground from the end of a node to the next one.
    Ground(Node),
    /// The aircraft of a fleet that are not used.
    Slack { fleet: u32 },
    /// How many more aircraft may stand at a station at the end of a day.
    Room(Park),
}

/// What a line asks for.
#[derive(Clone, Copy)]
pub enum Line {
    /// Each leg is flown once.
    Cover { leg: u32 },
    /// As many aircraft come to a node as leave it.
    Balance(Node),
    /// A fleet's aircraft at the start of the period are those that it has.
    Count { fleet: u32 },
    /// No more aircraft than the limit stand at a station at the end of a day.
    Parking(Park),
}
