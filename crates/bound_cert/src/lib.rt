//! The text of the proof of a bound, and its reader.
#![tactic(auto)]

pub mod faults;
pub mod laws;
pub mod line_reading;
pub mod node_reading;
pub mod nodes;
pub mod price_reading;
pub mod reading;
pub mod reading_lines;
pub mod tree_reading;
pub mod writing;

pub use dual_bound::worth::worth;
pub use dual_bound::{Cause, Charge, Mixed, PriceStep, Prices, Tree, TreeCounts, Weight};
pub use faults::{CertError, CertFault};
pub use reading::{Proof, read_proof};
pub use writing::write_proof;
