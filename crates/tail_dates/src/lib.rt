//! With which line of a tour each of a fleet's tails begins, so that each comes to maintenance in time.
#![tactic(auto)]

mod late;
pub mod laws;
mod place_numbers;
pub mod placing;
mod ranks;
mod reaches;
pub mod tail_table;
pub mod tails;
mod there;
mod tour_places;

pub use placing::{Placed, place};
pub use tail_table::read_tails;
pub use tails::{Place, TailState};
