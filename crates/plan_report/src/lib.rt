//! The summary of a result, in lines or as JSON.
#![tactic(auto)]

pub mod json;
pub mod laws;
pub mod summary_lines;

pub use euler_rotation::FleetRotation;
pub use json::summary_json;
pub use rotation_report::{rotation_csv, tail_lines};
pub use summary_lines::summary;
