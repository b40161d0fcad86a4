//! Counts over a schedule, for whatever weighs its pairs: arrivals, departures, need, stands and use.
#![tactic(auto)]

pub mod counting;
pub mod flights;
pub mod laws;
pub mod planned;
pub mod using;

pub use counting::{arrivals, departures, need, stand};
pub use flights::{Flights, MAX_WEIGHT};
pub use planned::Planned;
pub use using::used;
