//! The text of a plan, both ways: `plan.csv`.
#![tactic(auto)]

mod choices;
pub mod faults;
pub mod laws;
pub mod reading;
mod record_writer;
pub mod writing;

pub use faults::{PlanError, PlanFault};
pub use reading::read_plan;
pub use writing::write_plan;
