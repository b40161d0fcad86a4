//! Schedules, fleets and assignments, and what they mean: times, counts, need, use, legal and cost.
#![tactic(auto)]

pub mod access;
pub mod assignments;
pub mod costs;
pub mod departing;
pub mod kept;
pub mod laws;
pub mod limits;
pub mod options;
pub mod parts;
pub mod period;
pub mod refusals;
mod saved;
pub mod shifts;
pub mod sizes;
pub mod subproblems;
pub mod tables;
pub mod times;
pub mod undoing;

pub use assignments::Assignment;
pub use costs::Costs;
pub use departing::departures_of;
pub use kept::{Kept, Step};
pub use options::{PLAIN_SETTINGS, TableOptions};
pub use parts::{Connection, Departure, Fleet, Leg, Pair, PairCost, Settings, Station, Through};
pub use refusals::{BadInput, LoadError, TableFile};
pub use shifts::{Shift, Shifts};
pub use sizes::Sizes;
pub use tables::Tables;
pub use times::{busy, laps, nights, ready};
pub use undoing::Undo;
