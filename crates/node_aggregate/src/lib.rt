//! Events of a fleet at a station; minutes at which a station is empty; and nodes of the time-line network: events gathered
//! where the aircraft on the ground need no count in between, and the ground arcs behind them: which carry no aircraft in
//! any mixed plan, and at which moment.
#![tactic(auto)]

pub mod aggregation;
pub mod arcs;
pub mod island_cut;
pub mod kept_idles;
pub mod laws;
pub mod places;
pub mod timeline_net;

pub use aggregation::{days_at, nodes};
pub use arcs::moments;
pub use kept_idles::idle_minutes;
pub use places::{node_end, node_of};
