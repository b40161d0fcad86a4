//! The rotations of a plan: of each fleet the through pairs that are worth most, its rotation with them and, where that is
//! given up, the one without them.
#![tactic(auto)]

pub mod best_matching;
pub mod making;
pub mod through_flights;

pub use euler_rotation::FleetRotation;
pub use making::rotations;
