//! Tables made from a number: a hub, its spokes, and round trips that the draws of the number choose.
#![tactic(auto)]

pub mod draws;
pub mod fields;
pub mod laws;
pub mod made;
pub mod texts;
pub mod trips;

pub use made::{MadeTables, make_tables};
