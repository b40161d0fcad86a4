//! The records of a CSV file and the readers of their fields, over bytes.
#![tactic(auto)]

pub mod fault;
pub mod flag;
pub mod name;
pub mod number;
pub mod record;
pub mod time;

pub use fault::FieldFault;
pub use flag::yes_no;
pub use name::{fleet_name, flight_name, station_code};
pub use number::whole;
pub use record::records;
pub use time::clock_time;
