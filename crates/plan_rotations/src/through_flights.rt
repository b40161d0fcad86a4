//! Through flights: which pairs of legs of a fleet are flown through, at the greatest value in sum.

pub mod choosing;
pub mod laws;
pub mod values;
pub mod waits;
pub mod worths;

pub use choosing::{Throughs, choose};
