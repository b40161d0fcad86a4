//! Looks for an end of a subproblem's lines by the dual simplex method over factors of the basis, and makes it exact. What it finds is a
//! hint, which others check.
#![tactic(auto)]

pub mod ends;
pub mod find;
pub mod fractions;
pub mod modular;
pub mod places;

pub use ends::{ExactEnd, exact_end};
pub use find::DualSimplex;
pub use fractions::Ratios;
