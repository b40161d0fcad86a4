//! From the last table of a run over a subproblem's lines, or from an end of them that was checked, to prices, and to a
//! fractional assignment of the same value.
#![tactic(auto)]

pub mod best_point;
pub mod end_lifts;
pub mod laws;
pub mod lift;
pub mod lifting;
pub mod lowest;
pub mod paying;
pub mod pricing;
pub mod stepping;
pub mod weighing;

pub use best_point::BestPoint;
pub use end_lifts::{lift_end, lift_refusing_end};
pub use lift::{Lifted, lift_best, lift_refusal};
pub use lifting::{lift_best_with, lift_refusal_with};
pub use simplex_frac::dual_lift::LiftError;
