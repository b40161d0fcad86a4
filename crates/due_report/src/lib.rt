//! What becomes of a plan's named tails: with which line each of them begins, and what it flies on each date.
#![tactic(auto)]

pub mod laws;
pub mod lines;
pub mod placing;
mod unplaced;

pub use lines::due_lines;
pub use placing::{are_unplaced, placings};
