use calendar_dates::Date;
use fleet_model::limits::MINUTES_PER_DAY;
use fleet_model::{Settings, TableOptions};

/// The clock minute at which the day starts where no option sets it: 03:00.
pub const DEFAULT_DAY_START: u16 = 180;

/// The longest wait of a through pair where no option sets it, in minutes.
pub const DEFAULT_THROUGH_MAX: u16 = 60;

/// The greatest longest wait of a through pair that an option may set, in minutes: it ends within a day.
pub const MAX_THROUGH_MAX: u16 = MINUTES_PER_DAY - 1;

/// The least minutes on the ground of a night for maintenance where no option sets them.
pub const DEFAULT_LEAST_NIGHT: u16 = 0;

/// The most of them that an option may set, those of a day: two nights in one wait are always longer.
pub const MAX_LEAST_NIGHT: u16 = fleet_model::limits::MAX_LEAST_NIGHT;

/// The days of the period where no option sets them.
pub const DEFAULT_PERIOD: u16 = 1;

/// The fewest days of the period that an option may set.
pub const MIN_PERIOD: u16 = 1;

/// The most days of the period that an option may set.
pub const MAX_PERIOD: u16 = fleet_model::limits::MAX_PERIOD;

/// How a search makes its choices where no option says it.
pub const DEFAULT_WAY: SearchWay = SearchWay::Fixed;

/// How often a search may split where no option sets it.
pub const DEFAULT_NODES: u64 = 1000;

/// The most splits that an option may set.
pub const MAX_NODES: u64 = 1_000_000;

/// How many pivots a subproblem may take where no option sets it.
pub const DEFAULT_PIVOTS: u64 = 20_000;

/// The most pivots of a subproblem that an option may set.
pub const MAX_PIVOTS: u64 = 1_000_000;

/// After how many days at most an aircraft comes to maintenance where no option sets it.
pub const DEFAULT_DAYS: u32 = 3;

/// The fewest days between maintenance that an option may set.
pub const MIN_DAYS: u32 = 1;

/// The most days between maintenance that an option may set.
pub const MAX_DAYS: u32 = 30;

/// How many prefixes of tours a search for a rotation may visit where no option sets it.
pub const DEFAULT_VISITS: u32 = 200_000;

/// The most prefixes of tours that an option may set.
pub const MAX_VISITS: u32 = 1_000_000;

/// The fewest dates that tails are printed for.
pub const MIN_DATES: u32 = 1;

/// The most dates that tails are printed for.
pub const MAX_DATES: u32 = 366;

/// The greatest number that tables are made of.
pub const MAX_NUMBER: u32 = 2_147_483_647;

/// The most legs of tables that are made.
pub const MAX_MADE_LEGS: u32 = 1000;

/// How a search for a plan makes its choices, and so which trees of its proof it may end with.
#[derive(Clone, Copy)]
pub enum SearchWay {
    /// Each choice is fixed by a rule.
    Fixed,
    /// No choice is: any tree that holds may be found.
    Free,
}

/// How much a search may do.
#[derive(Clone, Copy)]
pub struct SearchLimits {
    /// The most splits of its tree.
    pub nodes: u64,
    /// The most pivots of one subproblem; none where all are allowed.
    pub pivots: Option<u64>,
}

/// What a fleet's rotation has to keep, and how long one is searched for.
#[derive(Clone, Copy)]
pub struct RotationLimits {
    /// The most days after which an aircraft comes to maintenance.
    pub days: u32,
    /// The most prefixes of tours that the search visits.
    pub visits: u32,
}

/// How a plan is searched for, and how its summary is printed.
#[derive(Clone, Copy)]
pub struct SolveOptions {
    /// How the search for the plan makes its choices.
    pub way: SearchWay,
    /// How much the search for the plan may do.
    pub search: SearchLimits,
    /// The limits of the plan's rotations.
    pub rotations: RotationLimits,
    /// Whether the summary is printed as JSON.
    pub json: bool,
}

/// How tables are read where no option says it.
pub const DEFAULT_READING: TableOptions = TableOptions {
    settings: Settings {
        day_start: DEFAULT_DAY_START,
        through_max: DEFAULT_THROUGH_MAX,
        least_night: DEFAULT_LEAST_NIGHT,
        period: DEFAULT_PERIOD,
    },
    windows: false,
    optional: false,
};

/// How a plan is searched for where no option says it.
pub const DEFAULT_OPTIONS: SolveOptions = SolveOptions {
    way: DEFAULT_WAY,
    search: SearchLimits {
        nodes: DEFAULT_NODES,
        pivots: Some(DEFAULT_PIVOTS),
    },
    rotations: RotationLimits {
        days: DEFAULT_DAYS,
        visits: DEFAULT_VISITS,
    },
    json: false,
};

/// Dates one after the other.
#[derive(Clone, Copy)]
pub struct Dates {
    /// The first of them.
    pub first: Date,
    /// How many there are, the first among them.
    pub count: u32,
    /// How many days the first of them comes after a first day of the period.
    pub past: u32,
}

/// What a call asks for. The folder's name is one of the words.
#[derive(Clone, Copy)]
pub enum Command<'a> {
    /// Judge the plan of a folder.
    Judge {
        dir: &'a str,
        reading: TableOptions,
    },
    /// Find a plan for the tables of a folder.
    Solve {
        dir: &'a str,
        reading: TableOptions,
        options: SolveOptions,
    },
    /// Check the proof of a folder, and its plan where the proof says that one comes with it.
    Check {
        dir: &'a str,
        reading: TableOptions,
    },
    /// Print what each aircraft of a folder's plan flies on some dates.
    Tails {
        dir: &'a str,
        reading: TableOptions,
        rotations: RotationLimits,
        dates: Dates,
    },
    /// Print what each named tail of a folder's plan flies on some dates.
    Due {
        dir: &'a str,
        reading: TableOptions,
        rotations: RotationLimits,
        dates: Dates,
    },
    /// Make tables of a number and of so many legs in a folder, and find a plan for them by the defaults.
    Make {
        dir: &'a str,
        number: u32,
        legs: u32,
    },
    /// Ask what the proof of a folder says where a fleet has so many aircraft.
    Whatif {
        dir: &'a str,
        reading: TableOptions,
        fleet: &'a str,
        count: u32,
    },
}
