//! The dual simplex method on the columns of lines, with some of them held at 0, from any basis. Numbers are in parts of 2^30, so what it
//! ends at is to be checked.
#![tactic(auto)]

pub mod basis;
pub mod changing;
pub mod cleaning;
pub mod dual_run;
pub mod entering;
pub mod leaving;
pub mod limits;
pub mod lines;
pub mod renewing;
pub mod row;
pub mod saving;
pub mod wholes;
pub mod workspace;

pub use basis::Basis;
pub use limits::{Ended, Limits};
pub use lines::Lines;
pub use saving::Saved;
pub use workspace::Workspace;
