//! Rotations: in which order one aircraft after another flies the legs of a fleet, so that each comes to maintenance;
//! and what was made of each fleet, below those who make it and those who tell it.
#![tactic(auto)]

mod asked;
mod clean;
mod field;
pub mod fleet_rotation;
mod improving;
mod kept;
pub mod laws;
mod nights;
mod path;
pub mod rotating;
pub mod rotation;
mod search;
mod starting;
mod stays;
mod supply;
mod walk;

pub use fleet_rotation::FleetRotation;
pub use rotating::rotate;
pub use rotation::Rotation;
