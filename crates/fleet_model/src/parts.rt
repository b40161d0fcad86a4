use crate::shifts::Shifts;
use entries::Entries;

/// A station.
#[derive(Drop)]
pub struct Station {
    /// Three capital letters.
    pub code: Entries<u8>,
    /// Minutes that a turn takes here beside the fleet's own.
    pub extra: u16,
    /// Whether an aircraft can be maintained here at night.
    pub maintenance: bool,
    /// How many aircraft may stand here at the end of a day, all fleets together, and none where there is no limit.
    pub parking: Option<u32>,
}

/// A fleet: the aircraft of one type.
#[derive(Drop)]
pub struct Fleet {
    /// One to eight capital letters and digits.
    pub name: Entries<u8>,
    /// How many aircraft it has.
    pub aircraft: u32,
    /// Minutes from landing until an aircraft of it can depart again.
    pub turn: u16,
}

/// A leg: one flight of the schedule, flown once a period.
#[derive(Drop)]
pub struct Leg {
    /// One to eight capital letters and digits.
    pub flight: Entries<u8>,
    /// The station of departure, by its number.
    pub from: u32,
    /// The minute of departure at the leg's own time, counted from the start of the period.
    pub dep: u16,
    /// The station of arrival, by its number.
    pub to: u32,
    /// Minutes from departure to arrival.
    pub block: u16,
    /// The times at which it may depart, its own among them.
    pub shifts: Shifts,
    /// What it costs to leave it out, in cost units, and none where it must be flown.
    pub skip: Option<i128>,
}

/// A leg at one of its times.
#[derive(Clone, Copy, Debug, PartialEq, Eq)]
pub struct Departure {
    pub leg: u32,
    /// The place of the time among those of the leg.
    pub slot: u32,
}

/// A leg with one of its choices, both by number: what an assignment chooses and a subproblem keeps. The choices of a leg are
/// its fleets, each at each of its times, and last to be left out. In lists they go by leg, then choice.
#[derive(Clone, Copy, Debug, PartialEq, Eq)]
pub struct Pair {
    pub leg: u32,
    pub choice: u32,
}

/// What it costs to fly a leg with a fleet, in cost units.
#[derive(Clone, Copy)]
pub struct PairCost {
    pub leg: u32,
    pub fleet: u32,
    pub cost: i128,
}

/// A leg that arrives and one that departs, by number, in one aircraft.
#[derive(Clone, Copy, PartialEq, Eq)]
pub struct Connection {
    pub arriving: u32,
    pub departing: u32,
}

/// Two legs that passengers would like to fly in one aircraft, and what that is worth, in cost units.
#[derive(Clone, Copy)]
pub struct Through {
    /// The leg that arrives.
    pub arriving: u32,
    /// The leg that departs.
    pub departing: u32,
    pub value: i128,
}

/// What the command line says of the tables.
#[derive(Clone, Copy)]
pub struct Settings {
    /// The clock minute at which the day starts; minutes of departure are counted from it.
    pub day_start: u16,
    /// The longest wait between the two legs of a through pair, in minutes.
    pub through_max: u16,
    /// The shortest stay that makes a night at a maintenance station one for maintenance, in minutes, at most those of a day.
    /// By 0 each such night is one.
    pub least_night: u16,
    /// The days after which the schedule repeats, 1 to 7.
    pub period: u16,
}
