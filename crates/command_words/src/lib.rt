//! What the words of a call ask for, by what `clap` finds for them on the program's command line.
#![tactic(auto)]

mod arguments;
mod command;
mod command_line;
pub mod laws;
mod values;
mod words;

pub use command::{
    Command, DEFAULT_DAY_START, DEFAULT_DAYS, DEFAULT_LEAST_NIGHT, DEFAULT_NODES, DEFAULT_OPTIONS,
    DEFAULT_PERIOD, DEFAULT_PIVOTS, DEFAULT_READING, DEFAULT_THROUGH_MAX, DEFAULT_VISITS,
    DEFAULT_WAY, Dates, MAX_DATES, MAX_DAYS, MAX_LEAST_NIGHT, MAX_MADE_LEGS, MAX_NODES, MAX_NUMBER,
    MAX_PERIOD, MAX_PIVOTS, MAX_THROUGH_MAX, MAX_VISITS, MIN_DATES, MIN_DAYS, MIN_PERIOD,
    RotationLimits, SearchLimits, SearchWay, SolveOptions,
};
pub use words::command_of;
