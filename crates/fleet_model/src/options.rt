//! How the tables of a folder are read.
use crate::parts::Settings;

/// Settings that ask for least: days from midnight on, a period of one, no wait in a through pair, and no night too short.
pub const PLAIN_SETTINGS: Settings = Settings {
    day_start: 0,
    through_max: 0,
    least_night: 0,
    period: 1,
};

/// How the tables of a folder are read, as the options of a command say it.
#[derive(Clone, Copy)]
pub struct TableOptions {
    /// The settings that the tables then hold.
    pub settings: Settings,
    /// Whether the table of windows is read.
    pub windows: bool,
    /// Whether the table of optional legs is read.
    pub optional: bool,
}
