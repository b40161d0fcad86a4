/// The minutes of a day. Clock times, blocks and nights are reckoned by the day.
pub const MINUTES_PER_DAY: u16 = 1440;

/// The most days of a period.
pub const MAX_PERIOD: u16 = 7;

/// The most stations that tables have.
pub const MAX_STATIONS: usize = 200;

/// The most fleets that tables have.
pub const MAX_FLEETS: usize = 20;

/// The most legs that tables have.
pub const MAX_LEGS: usize = 1000;

/// The most times at which a leg may depart, its own with them.
pub const MAX_SHIFTS: usize = 9;

/// The most minutes by which a leg may depart later or earlier than at its own time.
pub const MAX_SHIFT: i16 = 720;

/// The most choices of a leg: each fleet at each time, and to be left out.
pub const MAX_CHOICES: usize = MAX_FLEETS * MAX_SHIFTS + 1;

/// The most departures that legs have.
pub const MAX_DEPARTURES: usize = MAX_LEGS * MAX_SHIFTS;

/// The most pairs by which legs may be flown: of each leg the fleets that it has a cost with, each at each of its times.
pub const MAX_TRIPLES: usize = 20_000;

/// The most through pairs that tables have.
pub const MAX_THROUGHS: usize = 2000;

/// The most aircraft of a fleet.
pub const MAX_AIRCRAFT: u32 = 500;

/// The longest turn of a fleet and the longest extra time of a station, in minutes.
pub const MAX_GROUND_MINUTES: u16 = 600;

/// The longest stay that a night for maintenance may be asked to have, in minutes.
pub const MAX_LEAST_NIGHT: u16 = MINUTES_PER_DAY;

/// The most ground arcs of one day: of each fleet at each station one in each minute.
pub const MAX_DAY_ARCS: usize = MAX_FLEETS * MAX_STATIONS * MINUTES_PER_DAY as usize;

/// The greatest limit of parking at a station.
pub const MAX_PARKING: u32 = 10_000;

/// The greatest size of a cost that tables name, and the greatest value of a through pair, in cost units.
pub const MAX_COST: i128 = 1_000_000_000_000;
